// The numbers of a list: their bound, and the set of them.

ghost use Rattle.std.specs.Prelude.{ℕ, ◌<◌, ◌↔◌, IfOk};
ghost use Rattle.equation_sets.specs.Members.{IsIn};
ghost use Rattle.spec_core.specs.Lists.{Each, IsOneOf};

use crate::set::NumberSet;
use spec_core::memory::Memory;
use std::alloc::Global;

/// One more than the largest of these numbers; 0 where there are none. It takes no memory.
pub fn bound_of(all: &[u32]) -> usize
    ensures above { Each (λ x. x < result) all.now }
{
    let mut bound = 0;
    for x in all {
        let needed = *x as usize + 1;
        if bound < needed {
            bound = needed;
        }
    }
    bound
}

/// The set of these numbers.
pub fn set_of(alloc: Global, all: &[u32]) -> Result<NumberSet, Memory>
    ensures exact { IfOk result (λ set. (n : ℕ) → IsIn n set ↔ IsOneOf n all.now) }
{
    let mut set = NumberSet::new(alloc, bound_of(all))?;
    for x in all {
        set.add(*x);
    }
    Ok(set)
}
