// Numbers that stand twice in a list, and such as don't stand in another one.

ghost use Rattle.std.specs.Prelude.{◌≡◌, IfOk, IfSome, IfNone};
ghost use Rattle.equation_faults.specs.Firsts.{IsFirstOf, IsFirstRepeated};
ghost use Rattle.spec_core.specs.Lists.{Each, IsOneOf, NoTwo};

use equation_sets::numbers::{bound_of, set_of};
use equation_sets::set::NumberSet;
use spec_core::memory::Memory;
use std::alloc::Global;

/// The number whose second occurrence comes first.
pub fn first_repeated(alloc: Global, all: &[u32]) -> Result<Option<u32>, Memory>
    ensures none { IfOk result (λ found. IfNone found (NoTwo (λ x y. x ≡ y) all.now)) }
    ensures first { IfOk result (λ found. IfSome found (IsFirstRepeated all.now)) }
{
    let mut seen = NumberSet::new(alloc, bound_of(all))?;
    for x in all {
        if seen.has(*x) {
            return Ok(Some(*x));
        }
        seen.add(*x);
    }
    Ok(None)
}

/// The first number that doesn't stand in `there`.
pub fn first_missing(alloc: Global, there: &[u32], all: &[u32]) -> Result<Option<u32>, Memory>
    ensures none { IfOk result (λ found. IfNone found (Each (λ x. IsOneOf x there.now) all.now)) }
    ensures first { IfOk result (λ found. IfSome found (IsFirstOf (λ x. IsOneOf x there.now → ⊥) all.now)) }
{
    let set = set_of(alloc, there)?;
    for x in all {
        if !set.has(*x) {
            return Ok(Some(*x));
        }
    }
    Ok(None)
}
