// Why there is no value.

ghost use Rattle.std.specs.Prelude.{◌≡◌};

use spec_core::memory::Memory;
use std::alloc::{AllocError, AllocFailed};
use thiserror::Error;

/// Why an evaluation gave no value.
#[derive(Clone, Copy, Debug, PartialEq, Eq, Error)]
pub enum EvaluationFault {
    /// The term has no value within the budget, or an equation has a loose variable.
    #[error("no value within the budget")]
    Spent,
    /// Want of memory.
    #[error("out of memory")]
    Memory,
}

impl From<Memory> for EvaluationFault {
    ghost use Rattle.value_reference.specs.declared.fault.EvaluationFault.TheVariants.{Memory as NoMemory};

    ghost from_gives = { λ _ e. e ≡ NoMemory };

    fn from(_: Memory) -> EvaluationFault {
        EvaluationFault::Memory
    }
}

impl From<AllocError> for EvaluationFault {
    ghost use Rattle.value_reference.specs.declared.fault.EvaluationFault.TheVariants.{Memory as NoMemory};

    ghost from_gives = { λ _ e. e ≡ NoMemory };

    fn from(_: AllocError) -> EvaluationFault {
        EvaluationFault::Memory
    }
}

impl<T: Drop> From<AllocFailed<T>> for EvaluationFault {
    ghost use Rattle.value_reference.specs.declared.fault.EvaluationFault.TheVariants.{Memory as NoMemory};

    ghost from_gives = { λ _ e. e ≡ NoMemory };

    fn from(_: AllocFailed<T>) -> EvaluationFault {
        EvaluationFault::Memory
    }
}
