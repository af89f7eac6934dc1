// Why a tree gives no step.

ghost use Rattle.std.specs.Prelude.{◌≡◌};
ghost use Rattle.rule_walk.specs.Faults.{IsMisfit, IsBelow};

use spec_core::memory::Memory;
use spec_core::term::Term;
use std::alloc::{AllocError, AllocFailed, Global};

/// Why a tree gives no step.
#[derive(Drop)]
pub enum FireFault {
    /// The rule at this path of the tree doesn't fit. The path has a 0 for the first part of a tree and a 1 for the second part.
    Unfit { at: Vec<u32> },
    /// A term that the tree asks has no value within the budget.
    Spent { term: Term },
    /// The evaluation of a term that the tree asks meets a value of more than 65,536 symbols.
    TooLarge { term: Term },
    /// Want of memory.
    Memory,
}

impl From<Memory> for FireFault {
    ghost use Rattle.rule_walk.specs.declared.fault.FireFault.TheVariants.{Memory as NoMemory};

    ghost from_gives = { λ _ e. e ≡ NoMemory };

    fn from(_: Memory) -> FireFault {
        FireFault::Memory
    }
}

impl From<AllocError> for FireFault {
    ghost use Rattle.rule_walk.specs.declared.fault.FireFault.TheVariants.{Memory as NoMemory};

    ghost from_gives = { λ _ e. e ≡ NoMemory };

    fn from(_: AllocError) -> FireFault {
        FireFault::Memory
    }
}

impl<T: Drop> From<AllocFailed<T>> for FireFault {
    ghost use Rattle.rule_walk.specs.declared.fault.FireFault.TheVariants.{Memory as NoMemory};

    ghost from_gives = { λ _ e. e ≡ NoMemory };

    fn from(_: AllocFailed<T>) -> FireFault {
        FireFault::Memory
    }
}

/// The rule at the root doesn't fit. It takes no memory.
pub fn unfit(alloc: Global) -> FireFault
    ensures here { IsMisfit (Unit {0}) result }
{
    FireFault::Unfit {
        at: Vec::new(alloc),
    }
}

/// The fault of a part of the tree, whose place leads the path of what doesn't fit.
pub fn below(fault: FireFault, place: u32) -> FireFault
    ensures below { IsBelow place fault result }
{
    match fault {
        FireFault::Unfit { at } => {
            let mut path = at;
            match path.insert(0, place) {
                Ok(()) => FireFault::Unfit { at: path },
                Err(_) => FireFault::Memory,
            }
        }
        FireFault::Spent { term } => FireFault::Spent { term },
        FireFault::TooLarge { term } => FireFault::TooLarge { term },
        FireFault::Memory => FireFault::Memory,
    }
}
