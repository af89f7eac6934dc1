// Why an evaluation gave no value.

ghost use Rattle.std.specs.Prelude.{◌≡◌};

use spec_core::memory::Memory;
use std::alloc::{AllocError, AllocFailed};
use thiserror::Error;
use value_nodes::fault::NodeFault;

/// Why an evaluation gave no value.
#[derive(Clone, Copy, Debug, PartialEq, Eq, Error)]
pub enum Eval {
    /// The term has no value within the budget.
    #[error("no value within the budget")]
    Spent,
    /// The evaluation meets a value of more than 65,536 symbols.
    #[error("a value of more than 65536 symbols")]
    TooLarge,
    /// Want of memory.
    #[error("out of memory")]
    Memory,
}

/// Which of two terms.
#[derive(Clone, Copy, Debug, PartialEq, Eq)]
pub enum Side {
    /// The first of them.
    Left,
    /// The second of them.
    Right,
}

/// Why two terms aren't compared: the one that has no value, and why.
#[derive(Clone, Copy, Debug, PartialEq, Eq)]
pub struct SideFault {
    /// Which of the terms it is.
    pub side: Side,
    /// Why it has none.
    pub cause: Eval,
}

impl From<Memory> for Eval {
    ghost use Rattle.rewriter.specs.declared.fault.Eval.TheVariants.{Memory as NoMemory};

    ghost from_gives = { λ _ e. e ≡ NoMemory };

    fn from(_: Memory) -> Eval {
        Eval::Memory
    }
}

impl From<AllocError> for Eval {
    ghost use Rattle.rewriter.specs.declared.fault.Eval.TheVariants.{Memory as NoMemory};

    ghost from_gives = { λ _ e. e ≡ NoMemory };

    fn from(_: AllocError) -> Eval {
        Eval::Memory
    }
}

impl<T: Drop> From<AllocFailed<T>> for Eval {
    ghost use Rattle.rewriter.specs.declared.fault.Eval.TheVariants.{Memory as NoMemory};

    ghost from_gives = { λ _ e. e ≡ NoMemory };

    fn from(_: AllocFailed<T>) -> Eval {
        Eval::Memory
    }
}

impl From<NodeFault> for Eval {
    ghost use Rattle.rewriter.specs.Faults.{eval_of};

    ghost from_gives = { λ fault e. e ≡ eval_of fault };

    fn from(fault: NodeFault) -> Eval {
        match fault {
            NodeFault::TooLarge => Eval::TooLarge,
            NodeFault::Memory => Eval::Memory,
        }
    }
}
