// Why wishes have no values.

ghost use Rattle.std.specs.Prelude.{◌≡◌};

use spec_core::memory::Memory;
use spec_core::term::Term;
use std::alloc::{AllocError, AllocFailed};

/// Why what clients wish comes to no offers.
#[derive(Drop)]
pub enum WishFault {
    /// A term that is given has no value within the budget.
    Spent(Term),
    /// The evaluation of a term that is given meets a value of more than 65,536 symbols.
    TooLarge(Term),
    /// Want of memory.
    Memory,
}

impl From<Memory> for WishFault {
    ghost use Rattle.script_offers.specs.declared.fault.WishFault.TheVariants.{Memory as NoMemory};

    ghost from_gives = { λ _ e. e ≡ NoMemory };

    fn from(_: Memory) -> WishFault {
        WishFault::Memory
    }
}

impl From<AllocError> for WishFault {
    ghost use Rattle.script_offers.specs.declared.fault.WishFault.TheVariants.{Memory as NoMemory};

    ghost from_gives = { λ _ e. e ≡ NoMemory };

    fn from(_: AllocError) -> WishFault {
        WishFault::Memory
    }
}

impl<T: Drop> From<AllocFailed<T>> for WishFault {
    ghost use Rattle.script_offers.specs.declared.fault.WishFault.TheVariants.{Memory as NoMemory};

    ghost from_gives = { λ _ e. e ≡ NoMemory };

    fn from(_: AllocFailed<T>) -> WishFault {
        WishFault::Memory
    }
}
