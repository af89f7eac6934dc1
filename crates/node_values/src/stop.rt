// Why there is no answer.

ghost use Rattle.std.specs.Prelude.{◌≡◌};

use spec_core::memory::Memory;
use spec_core::term::Term;
use std::alloc::{AllocError, AllocFailed};

/// Why a job of a session has no answer.
#[derive(Drop)]
pub enum Stop {
    /// A term that is asked has no value within the budget.
    Spent(Term),
    /// The evaluation of a term that is asked meets a value of more than 65,536 symbols.
    TooLarge(Term),
    /// More operators and actions, or more composites, than are looked at; how many there are at least.
    Wide(u64),
    /// Want of memory.
    Memory,
}

impl From<Memory> for Stop {
    ghost use Rattle.node_values.specs.declared.stop.Stop.TheVariants.{Memory as NoMemory};

    ghost from_gives = { λ _ e. e ≡ NoMemory };

    fn from(_: Memory) -> Stop {
        Stop::Memory
    }
}

impl From<AllocError> for Stop {
    ghost use Rattle.node_values.specs.declared.stop.Stop.TheVariants.{Memory as NoMemory};

    ghost from_gives = { λ _ e. e ≡ NoMemory };

    fn from(_: AllocError) -> Stop {
        Stop::Memory
    }
}

impl<T: Drop> From<AllocFailed<T>> for Stop {
    ghost use Rattle.node_values.specs.declared.stop.Stop.TheVariants.{Memory as NoMemory};

    ghost from_gives = { λ _ e. e ≡ NoMemory };

    fn from(_: AllocFailed<T>) -> Stop {
        Stop::Memory
    }
}
