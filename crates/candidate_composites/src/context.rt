// The operators above a part of a tree, while the composites of the whole are made.

ghost use Rattle.std.specs.Prelude.{◌≡◌, ◌∷◌, [], ◌++◌, IfOk, map, true, if◌then◌else◌};
ghost use Rattle.spec_core.specs.Code.{synchronised_of};
ghost use Rattle.spec_core.specs.Numbers.{gate_number};
ghost use Rattle.symbolic_plans.specs.OpenPlans.{kind_in};
ghost use Rattle.node_trees.specs.Shapes.{unary_of};
ghost use Rattle.candidate_composites.specs.Known.{found_of, own_or_made, placed_over_one, step_of, turned_there, under_run};
ghost use Rattle.candidate_composites.specs.Contexts.{alone_by, all_through, down_by, repeated, row_of_disabling, run_alone, through};
ghost use Rattle.candidate_composites.specs.Contexts.{turn_of, turns_of};

use crate::found::{Found, Given};
use crate::step::Step;
use node_trees::branch::Single;
use spec_core::code::GateSet;
use spec_core::items::Gate;
use spec_core::memory::Memory;
use std::alloc::Global;
use symbolic_plans::composite::ActionKind;
use symbolic_plans::kind::{is_alone, is_end};
use symbolic_plans::scheme::Row;

/// What an operator over two parts makes of the composites of one of them: of the left side of a choice, of the right one, of the left side
/// of a disabling, of the right one, and of what the left side of a parallel composition does alone, or the right one.
#[derive(Clone, Copy)]
pub enum Turn<'a> {
    First,
    Second,
    Disabled,
    Disabling,
    Left(&'a GateSet),
    Right(&'a GateSet),
}

/// The operators above a part of a tree, the lowest first, up to the whole or to where a list of its own is made: an operator over one
/// part; and one over two parts, with how many more over it do the same.
#[derive(Clone, Copy)]
pub enum Context<'a, 'b> {
    Whole,
    Over(&'a Single, &'b Context<'a, 'b>),
    Under(Turn<'a>, u32, &'b Context<'a, 'b>),
}

// Whether both are the same gates, in the same order.
fn are_same(left: &[Gate], right: &[Gate]) -> bool
    ensures { result ≡ true → map gate_number left.now ≡ map gate_number right.now }
{
    match left {
        [] => right.is_empty(),
        [first, rest @ ..] => match right {
            [] => false,
            [other, others @ ..] => first.0 == other.0 && are_same(rest, others),
        },
    }
}

// Whether two parallel compositions synchronise at the same gates, as they are listed.
fn same_gates(left: &GateSet, right: &GateSet) -> bool
    ensures { result ≡ true → synchronised_of left.now ≡ synchronised_of right.now }
{
    match left {
        GateSet::Every => matches!(right, GateSet::Every),
        GateSet::These(gates) => match right {
            GateSet::Every => false,
            GateSet::These(others) => are_same(gates, others),
        },
    }
}

// Whether two operators make the same of composites.
fn same_turn(left: &Turn<'_>, right: &Turn<'_>) -> bool
    ensures { result ≡ true → turn_of left.now ≡ turn_of right.now }
{
    match left {
        Turn::First => matches!(right, Turn::First),
        Turn::Second => matches!(right, Turn::Second),
        Turn::Disabled => matches!(right, Turn::Disabled),
        Turn::Disabling => matches!(right, Turn::Disabling),
        Turn::Left(gates) => match right {
            Turn::Left(others) => same_gates(gates, others),
            _ => false,
        },
        Turn::Right(gates) => match right {
            Turn::Right(others) => same_gates(gates, others),
            _ => false,
        },
    }
}

impl<'a, 'b> Context<'a, 'b> {
    /// These operators, and one over two parts under them. Where the lowest of them does the same it counts once more there.
    pub fn under(turn: Turn<'a>, above: &'b Context<'a, 'b>) -> Context<'a, 'b>
        ensures { turns_of result ≡ turn_of turn.entry ∷ turns_of above.now }
    {
        match above {
            Context::Whole => Context::Under(turn, 0, above),
            Context::Over(_, _) => Context::Under(turn, 0, above),
            Context::Under(own, more, rest) => if *more < u32::MAX && same_turn(own, &turn) {
                Context::Under(turn, *more + 1, *rest)
            } else {
                Context::Under(turn, 0, above)
            },
        }
    }
}

// Puts it under a rule, and that rule so many times more over it.
fn put_below(alloc: Global, row: &Row, more: u32, found: &mut Found<'_>) -> Result<(), Memory>
    ensures { IfOk result (λ _. found_of found.new ≡ turned_there (under_run row.now more) (found_of found.old)) }
{
    match found {
        Found::Gap(_, _) => Ok(()),
        Found::Composite(composite) => composite.put_under(alloc, row, more),
    }
}

// The rule that a disabling puts over a composite of its left side.
fn disabling_row(kind: ActionKind) -> Row
    ensures { result ≡ row_of_disabling (kind_in kind) }
{
    if is_end(kind) {
        Row::Disend
    } else {
        Row::Disstep
    }
}

// What a disabling, and as many more over it, make of a part of their left side.
fn put_disabled(alloc: Global, more: u32, found: &mut Found<'_>) -> Result<(), Memory>
    ensures { IfOk result (λ _.
        found_of found.new ≡ turned_there (λ p. under_run (row_of_disabling p.kind) more p) (found_of found.old)) }
{
    match found {
        Found::Gap(_, _) => Ok(()),
        Found::Composite(composite) => {
            let row = disabling_row(composite.kind());
            composite.put_under(alloc, &row, more)
        }
    }
}

// What a side of a parallel composition, and like sides of as many more over it, make of a composite alone; whether they do it alone.
fn rises_alone(
    alloc: Global,
    gates: &GateSet,
    row: &Row,
    more: u32,
    composite: &mut Given<'_>,
) -> Result<bool, Memory>
    ensures { IfOk result (λ b.
        run_alone (synchronised_of gates.now) row.now more (own_or_made composite.old) ≡
        (if b then own_or_made composite.new ∷ [] else [])) }
{
    if is_alone(gates, composite.kind()) {
        composite.put_under(alloc, row, more)?;
        Ok(true)
    } else {
        Ok(false)
    }
}

// Puts a step over these, and the same so many times more.
fn put_steps<'a>(steps: &mut Vec<Step<'a>>, step: Step<'a>, more: u32) -> Result<(), Memory>
    ensures { IfOk result (λ _. map step_of steps.new.items ≡ down_by (step_of step.entry) more (map step_of steps.old.items)) }
{
    steps.push(step)?;
    for _turn in 0..more {
        steps.push(step)?;
    }
    Ok(())
}

// What a side of a parallel composition, and like sides of as many more over it, make of a part alone; whether there is any.
fn put_alone<'a>(
    alloc: Global,
    gates: &'a GateSet,
    row: &Row,
    more: u32,
    found: &mut Found<'a>,
) -> Result<bool, Memory>
    ensures { IfOk result (λ b.
        through (repeated (alone_by (synchronised_of gates.now) row.now) more []) (found_of found.old) ≡
        (if b then found_of found.new ∷ [] else [])) }
{
    match found {
        Found::Gap(_, steps) => {
            put_steps(steps, Step::Alone(gates), more)?;
            Ok(true)
        }
        Found::Composite(composite) => rises_alone(alloc, gates, row, more, composite),
    }
}

// What an operator over one part makes of it.
fn put_over<'a>(alloc: Global, operator: &'a Single, found: &mut Found<'a>) -> Result<(), Memory>
    ensures { IfOk result (λ _. found_of found.new ≡ placed_over_one (unary_of operator.now) (found_of found.old)) }
{
    match found {
        Found::Gap(_, steps) => {
            steps.push(Step::Under(operator))?;
            Ok(())
        }
        Found::Composite(composite) => composite.put_over(alloc, operator),
    }
}

// What an operator, and as many more over it that do the same, make of it; whether there is any.
#[inline(never)]
#[tactic(auto, using(crate::proofs::Runs::run_below, crate::proofs::Runs::run_disabled))]
fn put_run<'a>(
    alloc: Global,
    turn: &Turn<'a>,
    more: u32,
    found: &mut Found<'a>,
) -> Result<bool, Memory>
    ensures { IfOk result (λ b.
        through (repeated (turn_of turn.now) more []) (found_of found.old) ≡ (if b then found_of found.new ∷ [] else [])) }
{
    match turn {
        Turn::First => {
            put_below(alloc, &Row::Chl, more, found)?;
            Ok(true)
        }
        Turn::Second => {
            put_below(alloc, &Row::Chr, more, found)?;
            Ok(true)
        }
        Turn::Disabled => {
            put_disabled(alloc, more, found)?;
            Ok(true)
        }
        Turn::Disabling => {
            put_below(alloc, &Row::Distake, more, found)?;
            Ok(true)
        }
        Turn::Left(gates) => put_alone(alloc, gates, &Row::Parl, more, found),
        Turn::Right(gates) => put_alone(alloc, gates, &Row::Parr, more, found),
    }
}

// What all operators above make of it; whether there is any.
fn rises<'a>(
    alloc: Global,
    context: &Context<'a, '_>,
    found: &mut Found<'a>,
) -> Result<bool, Memory>
    ensures { IfOk result (λ b.
        through (turns_of context.now) (found_of found.old) ≡ (if b then found_of found.new ∷ [] else [])) }
{
    match context {
        Context::Whole => Ok(true),
        Context::Over(operator, above) => {
            put_over(alloc, operator, found)?;
            rises(alloc, above, found)
        }
        Context::Under(turn, more, above) => {
            if put_run(alloc, turn, *more, found)? {
                rises(alloc, above, found)
            } else {
                Ok(false)
            }
        }
    }
}

/// Appends what all operators above make of it.
pub fn put_through<'a>(
    alloc: Global,
    context: &Context<'a, '_>,
    found: Found<'a>,
    all: &mut Vec<Found<'a>>,
) -> Result<(), Memory>
    ensures { IfOk result (λ _.
        map found_of all.new.items ≡ map found_of all.old.items ++ through (turns_of context.now) (found_of found.entry)) }
{
    let mut found = found;
    if rises(alloc, context, &mut found)? {
        all.push(found)?;
    }
    Ok(())
}

/// Appends what all operators above make of these.
#[inline(never)]
pub fn put_all_through<'a>(
    alloc: Global,
    context: &Context<'a, '_>,
    those: Vec<Found<'a>>,
    all: &mut Vec<Found<'a>>,
) -> Result<(), Memory>
    ensures { IfOk result (λ _.
        map found_of all.new.items ≡ map found_of all.old.items ++ all_through (turns_of context.now) (map found_of those.entry.items)) }
{
    for found in those {
        put_through(alloc, context, found, all)?;
    }
    Ok(())
}
