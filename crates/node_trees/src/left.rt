// What is left of a step of an origin, with the values that are chosen.

ghost use Rattle.std.specs.Prelude.{◌≡◌, ◌∷◌, IfOk, map};
ghost use Rattle.spec_core.specs.Code.{program_of, relabelling_of};
ghost use Rattle.spec_core.specs.Ready.{IsReady};
ghost use Rattle.rule_model.specs.Substitution.{tidied};
ghost use Rattle.node_trees.specs.Generations.{IsFresh};
ghost use Rattle.node_trees.specs.Rests.{known_in, values_in, does_of, done_in, remainder_of, left_in};
ghost use Rattle.node_trees.specs.Shapes.{shape_of, unary_of, binary_of, applied, joined, stands_for};

use crate::branch::{Double, Single};
use crate::fresh::{Fresh, nothing, put_between, put_over};
use crate::renew::tidied_branch;
use crate::rest::{Deed, Known, Rest};
use crate::unfold::unfold;
use rule_model::action::{Action, Values};
use rule_model::rules::Slot;
use spec_core::code::Checked;
use spec_core::items::Gate;
use spec_core::memory::Memory;
use spec_core::value::Value;
use std::alloc::Global;

// A value that is told or chosen.
fn known_in(alloc: Global, chosen: &[Slot], known: &Known) -> Result<Value, Memory>
    ensures { IfOk result (λ v. v ≡ known_in chosen.now known.now) }
{
    match known {
        Known::Told(value) => value.copy(alloc),
        Known::Chosen(place) => match chosen.get(*place as usize) {
            Some(slot) => match slot {
                Slot::Of(value) => value.copy(alloc),
                Slot::Mark => Ok(Value::new(Vec::new(alloc))),
                Slot::Blank => Ok(Value::new(Vec::new(alloc))),
            },
            None => Ok(Value::new(Vec::new(alloc))),
        },
    }
}

// Values that are told or chosen.
fn all_known(alloc: Global, chosen: &[Slot], all: &[Known]) -> Result<Vec<Value>, Memory>
    ensures { IfOk result (λ values. values.items ≡ map (known_in chosen.now) all.now) }
{
    let mut values = Vec::new(alloc);
    for known in all {
        values.push(known_in(alloc, chosen, known)?)?;
    }
    Ok(values)
}

// One more value in front.
fn in_front(x: u32, value: Value, values: Vec<(u32, Value)>) -> Result<Vec<(u32, Value)>, Memory>
    ensures { IfOk result (λ all. all.items ≡ (x, value) ∷ values.items) }
{
    let mut all = values;
    match all.insert(0, (x, value)) {
        Ok(()) => Ok(all),
        Err(_) => Err(Memory),
    }
}

// Values for variables that are told or chosen.
fn values_in(
    alloc: Global,
    chosen: &[Slot],
    values: &[(u32, Known)],
) -> Result<Vec<(u32, Value)>, Memory>
    ensures { IfOk result (λ all. all.items ≡ values_in chosen.now values.now) }
{
    match values {
        [] => Ok(Vec::new(alloc)),
        [first, rest @ ..] => {
            let (x, known) = first;
            let value = known_in(alloc, chosen, known)?;
            in_front(*x, value, values_in(alloc, chosen, rest)?)
        }
    }
}

/// The action with the values that are chosen.
pub fn done_in(alloc: Global, chosen: &[Slot], deed: &Deed) -> Result<Action, Memory>
    ensures done { IfOk result (λ a. a ≡ done_in chosen.now (does_of deed.now)) }
{
    match deed {
        Deed::Inner => Ok(Action::Inner),
        Deed::Exit(values) => Ok(Action::Exit(Values::new(all_known(alloc, chosen, values)?))),
        Deed::At(gate, values) => Ok(Action::At(
            *gate,
            Values::new(all_known(alloc, chosen, values)?),
        )),
    }
}

// An operator over what is left.
#[cycle(unfolded_rest)]
#[inline(never)]
fn rest_over(
    alloc: Global,
    checked: &Checked,
    chosen: &[Slot],
    operator: Single,
    rest: &Rest,
    next: u128,
) -> Result<Fresh, Memory>
    requires ready { IsReady (program_of checked.now) }
    ensures stands { IfOk result (λ f.
        stands_for (program_of checked.now) (shape_of f.branch.value) ≡
        applied (program_of checked.now) (unary_of operator) (left_in (program_of checked.now) chosen.now (remainder_of rest.now))) }
    ensures fresh { IfOk result (λ f. IsFresh next f.next (shape_of f.branch.value)) }
{
    let one = unfolded_rest(alloc, checked, chosen, rest, next)?;
    put_over(alloc, operator, one, next)
}

// An operator between what is left on two sides.
#[cycle(unfolded_rest)]
#[inline(never)]
fn rest_between(
    alloc: Global,
    checked: &Checked,
    chosen: &[Slot],
    operator: Double,
    left: &Rest,
    right: &Rest,
    next: u128,
) -> Result<Fresh, Memory>
    requires ready { IsReady (program_of checked.now) }
    ensures stands { IfOk result (λ f.
        stands_for (program_of checked.now) (shape_of f.branch.value) ≡
        joined (binary_of operator) (left_in (program_of checked.now) chosen.now (remainder_of left.now))
        (left_in (program_of checked.now) chosen.now (remainder_of right.now))) }
    ensures fresh { IfOk result (λ f. IsFresh next f.next (shape_of f.branch.value)) }
{
    let one = unfolded_rest(alloc, checked, chosen, left, next)?;
    let two = unfolded_rest(alloc, checked, chosen, right, one.next)?;
    put_between(alloc, operator, one, two, next)
}

// What is left under a relabelling, tidied.
#[cycle(unfolded_rest)]
#[inline(never)]
fn rest_relabelled(
    alloc: Global,
    checked: &Checked,
    chosen: &[Slot],
    pairs: &[(Gate, Gate)],
    rest: &Rest,
    next: u128,
) -> Result<Fresh, Memory>
    requires ready { IsReady (program_of checked.now) }
    ensures stands { IfOk result (λ f.
        stands_for (program_of checked.now) (shape_of f.branch.value) ≡
        tidied (map relabelling_of pairs.now) (left_in (program_of checked.now) chosen.now (remainder_of rest.now))) }
    ensures fresh { IfOk result (λ f. IsFresh next f.next (shape_of f.branch.value)) }
{
    let one = unfolded_rest(alloc, checked, chosen, rest, next)?;
    tidied_later(alloc, checked, pairs, one, next)
}

/// What is left, unfolded into nodes that wait.
#[cycle(unfolded_rest)]
pub fn unfolded_rest(
    alloc: Global,
    checked: &Checked,
    chosen: &[Slot],
    rest: &Rest,
    next: u128,
) -> Result<Fresh, Memory>
    requires ready { IsReady (program_of checked.now) }
    ensures stands { IfOk result (λ f.
        stands_for (program_of checked.now) (shape_of f.branch.value) ≡
        left_in (program_of checked.now) chosen.now (remainder_of rest.now)) }
    ensures fresh { IfOk result (λ f. IsFresh next f.next (shape_of f.branch.value)) }
{
    match rest {
        Rest::Ended => nothing(alloc, next),
        Rest::At { node, values } => {
            let values = values_in(alloc, chosen, values)?;
            unfold(alloc, checked, *node, &values, next)
        }
        Rest::Hide(gates, rest) => {
            let operator = Single::Hide(Vec::from_slice(alloc, gates)?);
            rest_over(alloc, checked, chosen, operator, rest, next)
        }
        Rest::Enable(rest, vars, right, values) => {
            let vars = Vec::from_slice(alloc, vars)?;
            let values = values_in(alloc, chosen, values)?;
            let operator = Single::Enable {
                vars,
                right: *right,
                values,
            };
            rest_over(alloc, checked, chosen, operator, rest, next)
        }
        Rest::Relabel(pairs, rest) => { rest_relabelled(alloc, checked, chosen, pairs, rest, next) }
        Rest::Par(gates, left, right) => {
            let operator = Double::Par(gates.copy(alloc)?);
            rest_between(alloc, checked, chosen, operator, left, right, next)
        }
        Rest::Disable(left, right) => rest_between(
            alloc,
            checked,
            chosen,
            Double::Disable,
            left,
            right,
            next,
        ),
    }
}

// A tree of new nodes under a relabelling, tidied: the nodes are made anew.
#[tactic(auto, using(crate::proofs::Growing::fresh_after))]
fn tidied_later(
    alloc: Global,
    checked: &Checked,
    pairs: &[(Gate, Gate)],
    one: Fresh,
    low: u128,
) -> Result<Fresh, Memory>
    requires ready { IsReady (program_of checked.now) }
    requires one { IsFresh low one.next (shape_of one.branch.value) }
    ensures stands { IfOk result (λ f.
        stands_for (program_of checked.now) (shape_of f.branch.value) ≡
        tidied (map relabelling_of pairs.now) (stands_for (program_of checked.now) (shape_of one.branch.value))) }
    ensures fresh { IfOk result (λ f. IsFresh low f.next (shape_of f.branch.value)) }
{
    tidied_branch(alloc, checked, pairs, &one.branch, one.next)
}
