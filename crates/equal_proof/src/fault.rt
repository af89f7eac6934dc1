// Why a certificate proves no equation.

ghost use Rattle.std.specs.Prelude.{◌≡◌};

use spec_core::memory::Memory;
use thiserror::Error;

/// Why a certificate proves no equation.
#[derive(Clone, Copy, Debug, PartialEq, Eq, Error)]
pub enum CheckFault {
    /// The step of this number, from 0, is the first that doesn't apply; or it is the number of steps, and not just one equation is left.
    #[error("not a proof at step {step}")]
    NotAProof { step: u64 },
    /// Want of memory.
    #[error("out of memory")]
    Memory,
}

impl From<Memory> for CheckFault {
    ghost use Rattle.equal_proof.specs.declared.fault.CheckFault.TheVariants.{Memory as NoMemory};

    ghost from_gives = { λ _ e. e ≡ NoMemory };

    fn from(_: Memory) -> CheckFault {
        CheckFault::Memory
    }
}
