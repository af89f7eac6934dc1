// What is done and left of a whole, from what is done and left of a part.

ghost use Rattle.std.specs.Prelude.{◌≡◌, List, IfOk, map};
ghost use Rattle.spec_core.specs.Code.{program_of, relabelling_of, variable_of, synchronised_of};
ghost use Rattle.spec_core.specs.Numbers.{gate_number};
ghost use Rattle.rule_model.specs.declared.rules.Slot.{Slot};
ghost use Rattle.rule_model.specs.Actions.{renamed_action};
ghost use Rattle.rule_origins.specs.Parts.{behaviour_at};
ghost use Rattle.node_trees.specs.Rests.{does_of, done_in};
ghost use Rattle.node_steps.specs.Frames.{surrounding_of, renaming, hiding_more, turning_inside, before_right, after_left, still_enabling};
ghost use Rattle.node_steps.specs.Frames.{handing, still_disabled};
ghost use Rattle.node_steps.specs.Knowing.{known_for};
ghost use Rattle.node_steps.specs.Turns.{Leaves, LeavesOr};

use crate::fields::{bound_in_front, stays, told_before};
use crate::turn::{Frame, Turn};
use node_trees::rest::{Deed, Known, Rest};
use rule_substitution::relabelling::renamed_gate;
use spec_core::code::{Checked, GateSet};
use spec_core::items::{Gate, Sort};
use spec_core::memory::Memory;
use spec_core::value::Value;
use std::alloc::Global;

// An action whose gate is renamed.
fn renamed_deed(pairs: &[(Gate, Gate)], action: Deed) -> Deed
    ensures renamed { (chosen : List Slot) →
        done_in chosen (does_of result) ≡ renamed_action (map relabelling_of pairs.now) (done_in chosen (does_of action)) }
{
    match action {
        Deed::Inner => Deed::Inner,
        Deed::Exit(known) => Deed::Exit(known),
        Deed::At(gate, known) => Deed::At(renamed_gate(pairs, gate), known),
    }
}

// What is done and left under a relabelling.
fn renamed(
    alloc: Global,
    checked: &Checked,
    values: &[(u32, Value)],
    pairs: Vec<(Gate, Gate)>,
    turn: Turn,
) -> Result<Turn, Memory>
    ensures { IfOk result (λ t. Leaves (program_of checked.now) values.now (renaming (map relabelling_of pairs.items)) turn t) }
{
    let Turn { action, rest } = turn;
    let action = renamed_deed(&pairs, action);
    let rest = Rest::relabel(alloc, pairs, rest)?;
    Ok(Turn { action, rest })
}

// What is done and left under a hiding, where the action isn't hidden.
fn hidden(
    alloc: Global,
    checked: &Checked,
    values: &[(u32, Value)],
    gates: Vec<Gate>,
    turn: Turn,
) -> Result<Turn, Memory>
    ensures { IfOk result (λ t. Leaves (program_of checked.now) values.now (hiding_more (map gate_number gates.items)) turn t) }
{
    let Turn { action, rest } = turn;
    let rest = Rest::hide(alloc, gates, rest)?;
    Ok(Turn { action, rest })
}

// What is done and left under a hiding, where the action is hidden.
fn inside(
    alloc: Global,
    checked: &Checked,
    values: &[(u32, Value)],
    gates: Vec<Gate>,
    turn: Turn,
) -> Result<Turn, Memory>
    ensures { IfOk result (λ t. Leaves (program_of checked.now) values.now (turning_inside (map gate_number gates.items)) turn t) }
{
    let Turn { action: _, rest } = turn;
    let rest = Rest::hide(alloc, gates, rest)?;
    let action = Deed::Inner;
    Ok(Turn { action, rest })
}

// What is done by the left side of a parallel composition, and left of both.
fn beside_right(
    alloc: Global,
    checked: &Checked,
    values: &[(u32, Value)],
    gates: GateSet,
    right: u32,
    turn: Turn,
) -> Result<Turn, Memory>
    ensures { IfOk result (λ t. Leaves (program_of checked.now) values.now
        (before_right (synchronised_of gates) (behaviour_at (program_of checked.now) right)) turn t) }
{
    let Turn { action, rest } = turn;
    let other = stays(alloc, right, values, Vec::new(alloc))?;
    let rest = Rest::parallel(alloc, gates, rest, other)?;
    Ok(Turn { action, rest })
}

// What is done by the right side of a parallel composition, and left of both.
fn beside_left(
    alloc: Global,
    checked: &Checked,
    values: &[(u32, Value)],
    gates: GateSet,
    left: u32,
    turn: Turn,
) -> Result<Turn, Memory>
    ensures { IfOk result (λ t. Leaves (program_of checked.now) values.now
        (after_left (synchronised_of gates) (behaviour_at (program_of checked.now) left)) turn t) }
{
    let Turn { action, rest } = turn;
    let other = stays(alloc, left, values, Vec::new(alloc))?;
    let rest = Rest::parallel(alloc, gates, other, rest)?;
    Ok(Turn { action, rest })
}

// What is done by the left side of an enabling, and left of both.
fn enabling(
    alloc: Global,
    checked: &Checked,
    values: &[(u32, Value)],
    vars: Vec<(u32, Sort)>,
    right: u32,
    turn: Turn,
) -> Result<Turn, Memory>
    ensures { IfOk result (λ t. Leaves (program_of checked.now) values.now
        (still_enabling (map variable_of vars.items) (behaviour_at (program_of checked.now) right)) turn t) }
{
    let Turn { action, rest } = turn;
    let later = told_before(alloc, values, Vec::new(alloc))?;
    let rest = Rest::enable(alloc, rest, vars, right, later)?;
    Ok(Turn { action, rest })
}

// What is done by the left side of a disabling, and left of both.
fn disabling(
    alloc: Global,
    checked: &Checked,
    values: &[(u32, Value)],
    right: u32,
    turn: Turn,
) -> Result<Turn, Memory>
    ensures { IfOk result (λ t. Leaves (program_of checked.now) values.now
        (still_disabled (behaviour_at (program_of checked.now) right)) turn t) }
{
    let Turn { action, rest } = turn;
    let other = stays(alloc, right, values, Vec::new(alloc))?;
    let rest = Rest::disable(alloc, rest, other)?;
    Ok(Turn { action, rest })
}

// Each variable with the value that it gets, as long as there are both.
fn handed(alloc: Global, vars: &[(u32, Sort)], known: &[Known]) -> Result<Vec<(u32, Known)>, Memory>
    ensures { IfOk result (λ all. all.items ≡ known_for (map variable_of vars.now) known.now) }
{
    match vars {
        [] => Ok(Vec::new(alloc)),
        [first, rest @ ..] => match known {
            [] => Ok(Vec::new(alloc)),
            [value, others @ ..] => {
                let (x, _) = first;
                let all = handed(alloc, rest, others)?;
                bound_in_front(*x, value.copy(alloc)?, all)
            }
        },
    }
}

// What is left of an enabling whose left side terminates: its right side, with the values that are handed on.
fn handing_on(
    alloc: Global,
    checked: &Checked,
    values: &[(u32, Value)],
    vars: Vec<(u32, Sort)>,
    right: u32,
    turn: Turn,
) -> Result<Option<Turn>, Memory>
    ensures { IfOk result (LeavesOr (program_of checked.now) values.now
        (handing (map variable_of vars.items) (behaviour_at (program_of checked.now) right)) turn) }
{
    let Turn { action, rest: _ } = turn;
    match action {
        Deed::Exit(known) => {
            let binders = handed(alloc, &vars, &known)?;
            let rest = stays(alloc, right, values, binders)?;
            let action = Deed::Inner;
            Ok(Some(Turn { action, rest }))
        }
        Deed::Inner | Deed::At(..) => Ok(None),
    }
}

/// What is done and left of the whole, where a part is done and left so; None where a part of an enabling is to terminate and doesn't.
pub fn leave(
    alloc: Global,
    checked: &Checked,
    values: &[(u32, Value)],
    frame: Frame,
    turn: Turn,
) -> Result<Option<Turn>, Memory>
    ensures leaves { IfOk result (LeavesOr (program_of checked.now) values.now (surrounding_of (program_of checked.now) frame) turn) }
{
    match frame {
        Frame::Same => Ok(Some(turn)),
        Frame::Renamed(pairs) => Ok(Some(renamed(alloc, checked, values, pairs, turn)?)),
        Frame::Hidden(gates) => Ok(Some(hidden(alloc, checked, values, gates, turn)?)),
        Frame::Inside(gates) => Ok(Some(inside(alloc, checked, values, gates, turn)?)),
        Frame::BesideRight(gates, right) => Ok(Some(beside_right(
            alloc, checked, values, gates, right, turn,
        )?)),
        Frame::BesideLeft(gates, left) => Ok(Some(beside_left(
            alloc, checked, values, gates, left, turn,
        )?)),
        Frame::Enabling(vars, right) => Ok(Some(enabling(
            alloc, checked, values, vars, right, turn,
        )?)),
        Frame::Handing(vars, right) => handing_on(alloc, checked, values, vars, right, turn),
        Frame::Disabling(right) => { Ok(Some(disabling(alloc, checked, values, right, turn)?)) }
    }
}
