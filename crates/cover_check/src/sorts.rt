// Open sorts.

ghost use Rattle.std.specs.Prelude.{ℕ, ◌≡◌, ◌↔◌, IfOk, IsTrue, false, map};
ghost use Rattle.std.specs.List.{slice_get};
ghost use Rattle.cover_check.specs.Opening.{ArePartial, AreOpen, AllOpen, PremiseAsksIn, EquationAsksIn, AsksIn, GivesOpen, IsClosedFor};
ghost use Rattle.cover_search.specs.Heads.{equations_at};
ghost use Rattle.cover_search.specs.Indexes.{IsIndexOf};
ghost use Rattle.cover_search.specs.Sorts.{IsDeclaredAt};
ghost use Rattle.equation_sets.specs.Members.{IsIn};
ghost use Rattle.spec_core.specs.Lists.{Each, OneOf};
ghost use Rattle.spec_core.specs.Numbers.{sort_number};
ghost use Rattle.spec_core.specs.Orthogonality.{IsOrthogonal};
ghost use Rattle.spec_core.specs.Sorts.{PremiseFits, EquationFits, FitsData};
ghost use Rattle.spec_core.specs.Theories.{premise_of, equation_of, theory_of};

use crate::partial::partial_operations;
use cover_search::{DataIndex, Headed};
use data_fits::head_sort;
use equation_sets::set::NumberSet;
use spec_core::equation::{DataSpec, Equation};
use spec_core::items::{Op, Sort};
use spec_core::memory::Memory;
use spec_core::term::Term;
use std::alloc::Global;

// Whether some sort of a list is in the set.
fn some_in(sorts: &[Sort], set: &NumberSet) -> bool
    ensures { IsTrue result ↔ OneOf (λ s. IsIn s set.now) (map sort_number sorts.now) }
{
    match sorts {
        [] => false,
        [first, rest @ ..] => set.has(first.0) || some_in(rest, set),
    }
}

// Whether a premise's sides are of a sort of the set.
fn premise_asks(algebra: &DataSpec, vars: &[Sort], premise: &(Term, Term), set: &NumberSet) -> bool
    requires fits { PremiseFits (theory_of algebra.now) (slice_get (map sort_number vars.now)) (premise_of premise.now) }
    ensures { IsTrue result ↔ PremiseAsksIn (theory_of algebra.now) (slice_get (map sort_number vars.now)) set.now (premise_of premise.now) }
{
    match head_sort(&premise.0, algebra, vars) {
        None => false,
        Some(sort) => set.has(sort.0),
    }
}

// Whether one of these premises does.
fn some_premise_asks(
    algebra: &DataSpec,
    vars: &[Sort],
    premises: &[(Term, Term)],
    set: &NumberSet,
) -> bool
    requires fit { Each (PremiseFits (theory_of algebra.now) (slice_get (map sort_number vars.now))) (map premise_of premises.now) }
    ensures { IsTrue result ↔
        OneOf (PremiseAsksIn (theory_of algebra.now) (slice_get (map sort_number vars.now)) set.now) (map premise_of premises.now) }
{
    match premises {
        [] => false,
        [first, rest @ ..] => {
            premise_asks(algebra, vars, first, set) || some_premise_asks(algebra, vars, rest, set)
        }
    }
}

// Whether an equation has a premise whose sides are of a sort of the set.
fn asks_in(algebra: &DataSpec, equation: &Equation, set: &NumberSet) -> bool
    requires fits { EquationFits (theory_of algebra.now) (equation_of equation.now) }
    ensures { IsTrue result ↔ EquationAsksIn (theory_of algebra.now) set.now (equation_of equation.now) }
{
    some_premise_asks(algebra, &equation.vars, &equation.premises, set)
}

// Whether one of these equations does.
fn some_asks(algebra: &DataSpec, headed: &[Headed<'_>], set: &NumberSet) -> bool
    requires fit { Each (EquationFits (theory_of algebra.now)) (equations_at headed.now) }
    ensures { IsTrue result ↔ OneOf (EquationAsksIn (theory_of algebra.now) set.now) (equations_at headed.now) }
{
    match headed {
        [] => false,
        [first, rest @ ..] => {
            asks_in(algebra, first.equation, set) || some_asks(algebra, rest, set)
        }
    }
}

// Whether one of an operation's equations does.
fn operation_asks(algebra: &DataSpec, index: &DataIndex<'_>, op: Op, set: &NumberSet) -> bool
    requires fits { FitsData (theory_of algebra.now) }
    requires index { IsIndexOf index.now (theory_of algebra.now) }
    ensures { IsTrue result ↔ AsksIn (theory_of algebra.now) set.now op.0 }
{
    match index.heads.headed(op) {
        None => false,
        Some(headed) => some_asks(algebra, headed, set),
    }
}

// Whether an operation is partial, or has an argument of a sort of the set, or asks a premise whose sides are of one.
fn gives_open(
    algebra: &DataSpec,
    index: &DataIndex<'_>,
    partial: &NumberSet,
    op: Op,
    args: &[Sort],
    set: &NumberSet,
) -> bool
    requires fits { FitsData (theory_of algebra.now) }
    requires index { IsIndexOf index.now (theory_of algebra.now) }
    requires partial { ArePartial (theory_of algebra.now) partial.now }
    ensures { IsTrue result ↔ GivesOpen (theory_of algebra.now) set.now op.0 (map sort_number args.now) }
{
    partial.has(op.0) || some_in(args, set) || operation_asks(algebra, index, op, set)
}

// Puts the result sort of such an operation into the set; whether it was not there.
fn visit(
    algebra: &DataSpec,
    index: &DataIndex<'_>,
    partial: &NumberSet,
    op: Op,
    args: &[Sort],
    sort: Sort,
    set: &mut NumberSet,
) -> bool
    requires fits { FitsData (theory_of algebra.now) }
    requires index { IsIndexOf index.now (theory_of algebra.now) }
    requires partial { ArePartial (theory_of algebra.now) partial.now }
    requires declared { IsDeclaredAt (theory_of algebra.now) op.0 (map sort_number args.now) sort.0 }
    ensures kept { (s : ℕ) → IsIn s set.old → IsIn s set.new }
    ensures sound { AllOpen (theory_of algebra.now) set.old → AllOpen (theory_of algebra.now) set.new }
    ensures same { result ≡ false → set.new ≡ set.old }
    ensures closed { result ≡ false → IsClosedFor (theory_of algebra.now) set.old op.0 }
{
    if set.has(sort.0) {
        return false;
    }
    if !gives_open(algebra, index, partial, op, args, set) {
        return false;
    }
    set.add(sort.0);
    true
}

// Puts in the result sorts of all such operations; whether there was a new one.
fn spread(
    algebra: &DataSpec,
    index: &DataIndex<'_>,
    partial: &NumberSet,
    set: &mut NumberSet,
) -> bool
    requires fits { FitsData (theory_of algebra.now) }
    requires index { IsIndexOf index.now (theory_of algebra.now) }
    requires partial { ArePartial (theory_of algebra.now) partial.now }
    ensures kept { (s : ℕ) → IsIn s set.old → IsIn s set.new }
    ensures sound { AllOpen (theory_of algebra.now) set.old → AllOpen (theory_of algebra.now) set.new }
    ensures closed { result ≡ false → (f : ℕ) → IsClosedFor (theory_of algebra.now) set.new f }
{
    let mut changed = false;
    for (i, declaration) in algebra.signature.ops.iter().enumerate() {
        let op = Op(i as u32);
        if visit(
            algebra,
            index,
            partial,
            op,
            &declaration.args,
            declaration.result,
            set,
        ) {
            changed = true;
        }
    }
    changed
}

/// The open sorts. It goes over the operations in rounds until no sort is new.
pub fn open_sorts(alloc: Global, algebra: &DataSpec) -> Result<NumberSet, Memory>
    requires fits { FitsData (theory_of algebra.now) }
    requires orthogonal { IsOrthogonal (theory_of algebra.now) }
    ensures exact { IfOk result (AreOpen (theory_of algebra.now)) }
{
    let index = DataIndex::of(alloc, algebra)?;
    let partial = partial_operations(alloc, algebra, &index)?;
    let mut set = NumberSet::new(alloc, algebra.signature.sorts.len())?;
    for _round in 0..u64::MAX {
        if !spread(algebra, &index, &partial, &mut set) {
            return Ok(set);
        }
    }
    Err(Memory)
}
