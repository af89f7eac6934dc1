// How behaviours may end.

ghost use Rattle.std.specs.Prelude.{◌≡◌, IfOk, map, option_map, nat_eq};
ghost use Rattle.std.specs.Cmp.Lexicographic.{pointwise};
ghost use Rattle.spec_core.specs.Numbers.{sort_number};
ghost use Rattle.static_readings.specs.Joins.{if_same, either, both};
ghost use Rattle.static_readings.specs.Views.{functionality_of};

use spec_core::items::Sort;
use spec_core::memory::Memory;
use std::alloc::Global;

/// How a behaviour may end.
#[derive(Drop)]
pub enum Functionality {
    /// Never.
    NoExit,
    /// With values of these sorts.
    Exits(Vec<Sort>),
}

impl Functionality {
    /// An equal functionality.
    pub fn copy(&self, alloc: Global) -> Result<Functionality, Memory>
        ensures { IfOk result (λ copied. functionality_of copied ≡ functionality_of self.now) }
    {
        match self {
            Functionality::NoExit => Ok(Functionality::NoExit),
            Functionality::Exits(sorts) => Ok(Functionality::Exits(Vec::from_slice(alloc, sorts)?)),
        }
    }
}

/// Whether two lists of sorts are equal. It takes no memory.
pub fn are_same(left: &[Sort], right: &[Sort]) -> bool
    ensures { result ≡ pointwise nat_eq (map sort_number left.now) (map sort_number right.now) }
{
    match left {
        [] => right.is_empty(),
        [first, rest @ ..] => match right {
            [] => false,
            [other, others @ ..] => first.0 == other.0 && are_same(rest, others),
        },
    }
}

// These sorts, where others are the same.
fn if_same(sorts: Vec<Sort>, others: &[Sort]) -> Option<Functionality>
    ensures { option_map functionality_of result ≡ if_same (map sort_number sorts.items) (map sort_number others.now) }
{
    if are_same(&sorts, others) {
        Some(Functionality::Exits(sorts))
    } else {
        None
    }
}

/// How two parts of a choice or a disabling end, if they may stand together. It takes no memory.
pub fn either(left: Functionality, right: Functionality) -> Option<Functionality>
    ensures { option_map functionality_of result ≡ either (functionality_of left) (functionality_of right) }
{
    match (left, right) {
        (Functionality::NoExit, right) => Some(right),
        (Functionality::Exits(sorts), Functionality::NoExit) => Some(Functionality::Exits(sorts)),
        (Functionality::Exits(sorts), Functionality::Exits(others)) => if_same(sorts, &others),
    }
}

/// How two parts of a parallel composition end, if they may stand together. It takes no memory.
pub fn both(left: Functionality, right: Functionality) -> Option<Functionality>
    ensures { option_map functionality_of result ≡ both (functionality_of left) (functionality_of right) }
{
    match (left, right) {
        (Functionality::NoExit, _) => Some(Functionality::NoExit),
        (Functionality::Exits(_), Functionality::NoExit) => Some(Functionality::NoExit),
        (Functionality::Exits(sorts), Functionality::Exits(others)) => if_same(sorts, &others),
    }
}
