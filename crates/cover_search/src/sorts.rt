// Which sorts have a ground constructor term.

ghost use Rattle.std.specs.Prelude.{ℕ, ◌≡◌, ◌↔◌, IfOk, IsTrue, false, map};
ghost use Rattle.cover_search.specs.Heads.{IsHeadIndexOf};
ghost use Rattle.cover_search.specs.Sorts.{AreIn, AllInhabited, AreInhabited, IsClosedAt, IsDeclaredAt};
ghost use Rattle.equation_sets.specs.Members.{IsIn};
ghost use Rattle.spec_core.specs.Numbers.{sort_number};
ghost use Rattle.spec_core.specs.Sorts.{FitsData};
ghost use Rattle.spec_core.specs.Theories.{theory_of};

use crate::heads::HeadIndex;
use equation_sets::set::NumberSet;
use spec_core::equation::DataSpec;
use spec_core::items::{Op, Sort};
use spec_core::memory::Memory;
use std::alloc::Global;

/// Whether all sorts of a list are in the set. It takes no memory.
pub fn are_in(sorts: &[Sort], set: &NumberSet) -> bool
    ensures decides { IsTrue result ↔ AreIn set.now (map sort_number sorts.now) }
{
    match sorts {
        [] => true,
        [first, rest @ ..] => set.has(first.0) && are_in(rest, set),
    }
}

// Puts the result sort of an operation into the set, if it is a constructor over sorts of the set; whether it was not there.
fn visit(
    algebra: &DataSpec,
    heads: &HeadIndex<'_>,
    op: Op,
    args: &[Sort],
    sort: Sort,
    set: &mut NumberSet,
) -> bool
    requires heads { IsHeadIndexOf heads.now (theory_of algebra.now).equations }
    requires declared { IsDeclaredAt (theory_of algebra.now) op.0 (map sort_number args.now) sort.0 }
    ensures kept { (s : ℕ) → IsIn s set.old → IsIn s set.new }
    ensures sound { AllInhabited (theory_of algebra.now) set.old → AllInhabited (theory_of algebra.now) set.new }
    ensures same { result ≡ false → set.new ≡ set.old }
    ensures closed { result ≡ false → IsClosedAt (theory_of algebra.now) set.old op.0 }
{
    if set.has(sort.0) {
        return false;
    }
    if !heads.is_constructor(algebra, op) {
        return false;
    }
    if !are_in(args, set) {
        return false;
    }
    set.add(sort.0);
    true
}

// Puts in the result sorts of all constructors over sorts of the set; whether there was a new one.
fn spread(algebra: &DataSpec, heads: &HeadIndex<'_>, set: &mut NumberSet) -> bool
    requires fits { FitsData (theory_of algebra.now) }
    requires heads { IsHeadIndexOf heads.now (theory_of algebra.now).equations }
    ensures kept { (s : ℕ) → IsIn s set.old → IsIn s set.new }
    ensures sound { AllInhabited (theory_of algebra.now) set.old → AllInhabited (theory_of algebra.now) set.new }
    ensures closed { result ≡ false → (c : ℕ) → IsClosedAt (theory_of algebra.now) set.new c }
{
    let mut changed = false;
    for (i, declaration) in algebra.signature.ops.iter().enumerate() {
        let op = Op(i as u32);
        if visit(
            algebra,
            heads,
            op,
            &declaration.args,
            declaration.result,
            set,
        ) {
            changed = true;
        }
    }
    changed
}

/// The sorts that have a ground constructor term.
pub fn inhabited_sorts(
    alloc: Global,
    algebra: &DataSpec,
    heads: &HeadIndex<'_>,
) -> Result<NumberSet, Memory>
    requires fits { FitsData (theory_of algebra.now) }
    requires heads { IsHeadIndexOf heads.now (theory_of algebra.now).equations }
    ensures exact { IfOk result (AreInhabited (theory_of algebra.now)) }
{
    let mut set = NumberSet::new(alloc, algebra.signature.sorts.len())?;
    for _round in 0..u64::MAX {
        if !spread(algebra, heads, &mut set) {
            return Ok(set);
        }
    }
    Err(Memory)
}
