// Why a log isn't found to be a derivation.

use rule_walk::FireFault;
use spec_core::memory::Memory;
use spec_core::term::Term;

/// Why a log isn't found to be a derivation.
#[derive(Drop)]
pub enum CheckFault {
    /// The entry of this number, from 0, is the first that isn't possible.
    NotPossible { entry: u64 },
    /// A term that the tree of an entry asks has no value within the budget.
    Spent { term: Term },
    /// The evaluation of a term that the tree of an entry asks meets a value of more than 65,536 symbols.
    TooLarge { term: Term },
    /// Want of memory.
    Memory,
}

impl From<Memory> for CheckFault {
    ghost use Rattle.std.specs.Prelude.{◌≡◌};
    ghost use Rattle.log_check.specs.declared.fault.CheckFault.TheVariants.{Memory as NoMemory};

    ghost from_gives = { λ _ e. e ≡ NoMemory };

    fn from(_: Memory) -> CheckFault {
        CheckFault::Memory
    }
}
