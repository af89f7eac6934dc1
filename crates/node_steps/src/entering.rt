// The parts that rules are over.

ghost use Rattle.std.specs.Prelude.{ℕ, suc, ◌≡◌, List, [], ◌∷◌, ◌++◌, IfOk, IfErr, IfSome, IfNone, Some, map};
ghost use Rattle.std.specs.List.{slice_get};
ghost use Rattle.spec_core.specs.Code.{Variable, node_of, process, program_of, relabelling_of, variable_of};
ghost use Rattle.spec_core.specs.Executable.{IsExecutable};
ghost use Rattle.spec_core.specs.Numbers.{gate_number};
ghost use Rattle.spec_core.specs.Ready.{IsReady};
ghost use Rattle.spec_core.specs.Terms.{term_of};
ghost use Rattle.rule_model.specs.Behaviours.{call, relabel};
ghost use Rattle.rule_origins.specs.Parts.{over_parts, behaviour_at};
ghost use Rattle.rule_origins.specs.Values.{assignment};
ghost use Rattle.node_values.specs.Stops.{Stops, Never};
ghost use Rattle.symbolic_plans.specs.declared.scheme.Row.TheVariants.{Chl, Chr, Val, Gate as GateRow, Guard, Let, Parl, Parr, Pass};
ghost use Rattle.symbolic_plans.specs.declared.scheme.Row.TheVariants.{Enstep};
ghost use Rattle.symbolic_plans.specs.declared.scheme.Row.TheVariants.{Disstep, Disend, Distake, Call, Rel};
ghost use Rattle.node_values.specs.Prepared.{program_in};
ghost use Rattle.node_steps.specs.declared.turn.Frame.TheVariants.{Same};
ghost use Rattle.node_steps.specs.declared.turn.Site.TheVariants.{At};
ghost use Rattle.symbolic_reach.specs.Asking.{RuleAsks};
ghost use Rattle.node_steps.specs.Parts.{own_or};
ghost use Rattle.node_steps.specs.Frames.{surrounding_of, standing};
ghost use Rattle.node_steps.specs.Turns.{EntersOr, EntersNode, EntersHidden, EntersEnding};

use crate::telling::{bind, bind_arguments, with_last};
use crate::turn::{Entered, Frame, Site};
use node_trees::origin::copy_values;
use node_values::Prepared;
use node_values::stop::Stop;
use rule_code::{gate_at, node_at, renaming};
use rule_model::rules::Slot;
use rule_origins::code::construct_at;
use rule_substitution::relabelling::pairs;
use spec_core::code::{Checked, CodeNode};
use spec_core::items::{Gate, Sort};
use spec_core::memory::Memory;
use spec_core::term::Term;
use spec_core::value::Value;
use std::alloc::Global;
use symbolic_plans::scheme::Row;

// A part of the code with the same values.
fn kept(part: u32, values: &[(u32, Value)], frame: Frame) -> Entered
    ensures site { result.site ≡ At part }
    ensures values { own_or values.now result.values ≡ values.now }
    ensures frame { result.frame ≡ frame }
{
    let site = Site::At(part);
    Entered {
        site,
        values: None,
        frame,
    }
}

// A side of a choice.
fn left_of_choice(
    checked: &Checked,
    construct: &CodeNode,
    values: &[(u32, Value)],
) -> Option<Entered>
    ensures { EntersNode (program_of checked.now) Chl values.now (node_of construct.now) result }
{
    match construct {
        CodeNode::Choice(left, _) => Some(kept(left.0, values, Frame::Same)),
        _ => None,
    }
}

fn right_of_choice(
    checked: &Checked,
    construct: &CodeNode,
    values: &[(u32, Value)],
) -> Option<Entered>
    ensures { EntersNode (program_of checked.now) Chr values.now (node_of construct.now) result }
{
    match construct {
        CodeNode::Choice(_, right) => Some(kept(right.0, values, Frame::Same)),
        _ => None,
    }
}

// The body of a guarded behaviour.
fn guarded_body(checked: &Checked, construct: &CodeNode, values: &[(u32, Value)]) -> Option<Entered>
    ensures { EntersNode (program_of checked.now) Guard values.now (node_of construct.now) result }
{
    match construct {
        CodeNode::Guard(_, _, part) => Some(kept(part.0, values, Frame::Same)),
        _ => None,
    }
}

// The body of a choice of a value, with the value.
fn valued_body(
    alloc: Global,
    checked: &Checked,
    construct: &CodeNode,
    values: &[(u32, Value)],
    slot: &Slot,
) -> Result<Option<Entered>, Memory>
    ensures { IfOk result (EntersNode (program_of checked.now) (Val slot.now) values.now (node_of construct.now)) }
{
    match slot {
        Slot::Of(value) => match construct {
            CodeNode::Values(x, _, part) => {
                Ok(Some(with_value(alloc, part.0, values, *x, value.copy(alloc)?)?))
            }
            _ => Ok(None),
        },
        Slot::Mark | Slot::Blank => Ok(None),
    }
}

// A part of the code with one more value.
fn with_value(
    alloc: Global,
    part: u32,
    values: &[(u32, Value)],
    x: u32,
    value: Value,
) -> Result<Entered, Memory>
    ensures site { IfOk result (λ e. e.site ≡ At part) }
    ensures values { IfOk result (λ e. own_or values.now e.values ≡ values.now ++ (x, value) ∷ []) }
    ensures frame { IfOk result (λ e. e.frame ≡ Same) }
{
    let kept = copy_values(alloc, values)?;
    let more = with_last(kept, x, value)?;
    let site = Site::At(part);
    let frame = Frame::Same;
    Ok(Entered {
        site,
        values: Some(more),
        frame,
    })
}

// The body of a choice of a gate, relabelled to the gate at a place.
fn gated_body(
    alloc: Global,
    checked: &Checked,
    construct: &CodeNode,
    values: &[(u32, Value)],
    place: u32,
) -> Result<Option<Entered>, Memory>
    ensures { IfOk result (EntersNode (program_of checked.now) (GateRow place) values.now (node_of construct.now)) }
{
    match construct {
        CodeNode::Gates(from, gates, part) => match gate_at(gates, place) {
            None => Ok(None),
            Some(to) => {
                let site = Site::Renamed(renaming(alloc, *from, to)?, part.0);
                let frame = Frame::Same;
                Ok(Some(Entered {
                    site,
                    values: None,
                    frame,
                }))
            }
        },
        _ => Ok(None),
    }
}

// The body of a `let`, with the values that it binds.
fn bound_body(
    alloc: Global,
    prepared: &Prepared,
    construct: &CodeNode,
    values: &[(u32, Value)],
    budget: u64,
) -> Result<Option<Entered>, Stop>
    requires executable { IsExecutable (program_in prepared.now).theory }
    ensures enters { IfOk result (EntersNode (program_in prepared.now) Let values.now (node_of construct.now)) }
    ensures fault { IfErr result (Stops (program_in prepared.now).theory budget
        (RuleAsks Let (assignment (program_in prepared.now).theory values.now)
        (over_parts (behaviour_at (program_in prepared.now)) (Some (node_of construct.now)))) Never) }
{
    match construct {
        CodeNode::Let(bindings, part) => {
            let inner = copy_values(alloc, values)?;
            match bind(alloc, prepared, values, inner, bindings, budget)? {
                None => Ok(None),
                Some(more) => {
                    let site = Site::At(part.0);
                    let frame = Frame::Same;
                    Ok(Some(Entered {
                        site,
                        values: Some(more),
                        frame,
                    }))
                }
            }
        }
        _ => Ok(None),
    }
}

// The side of a parallel composition that acts alone, beside the other one.
fn left_alone(
    alloc: Global,
    checked: &Checked,
    construct: &CodeNode,
    values: &[(u32, Value)],
) -> Result<Option<Entered>, Memory>
    ensures { IfOk result (EntersNode (program_of checked.now) Parl values.now (node_of construct.now)) }
{
    match construct {
        CodeNode::Par(gates, left, right) => {
            let frame = Frame::BesideRight(gates.copy(alloc)?, right.0);
            Ok(Some(kept(left.0, values, frame)))
        }
        _ => Ok(None),
    }
}

fn right_alone(
    alloc: Global,
    checked: &Checked,
    construct: &CodeNode,
    values: &[(u32, Value)],
) -> Result<Option<Entered>, Memory>
    ensures { IfOk result (EntersNode (program_of checked.now) Parr values.now (node_of construct.now)) }
{
    match construct {
        CodeNode::Par(gates, left, right) => {
            let frame = Frame::BesideLeft(gates.copy(alloc)?, left.0);
            Ok(Some(kept(right.0, values, frame)))
        }
        _ => Ok(None),
    }
}

// The body of a hiding, which acts not at a hidden gate, or at one.
fn passing_body(
    alloc: Global,
    checked: &Checked,
    construct: &CodeNode,
    values: &[(u32, Value)],
) -> Result<Option<Entered>, Memory>
    ensures { IfOk result (EntersNode (program_of checked.now) Pass values.now (node_of construct.now)) }
{
    match construct {
        CodeNode::Hide(gates, part) => {
            let frame = Frame::Hidden(Vec::from_slice(alloc, gates)?);
            Ok(Some(kept(part.0, values, frame)))
        }
        _ => Ok(None),
    }
}

fn hidden_body(
    alloc: Global,
    checked: &Checked,
    construct: &CodeNode,
    values: &[(u32, Value)],
) -> Result<Option<Entered>, Memory>
    ensures { IfOk result (EntersHidden (program_of checked.now) values.now
        (over_parts (behaviour_at (program_of checked.now)) (Some (node_of construct.now)))) }
{
    match construct {
        CodeNode::Hide(gates, part) => {
            let frame = Frame::Inside(Vec::from_slice(alloc, gates)?);
            Ok(Some(kept(part.0, values, frame)))
        }
        _ => Ok(None),
    }
}

// The left side of an enabling, which goes on, or terminates.
fn enabling_side(
    alloc: Global,
    checked: &Checked,
    construct: &CodeNode,
    values: &[(u32, Value)],
) -> Result<Option<Entered>, Memory>
    ensures { IfOk result (EntersNode (program_of checked.now) Enstep values.now (node_of construct.now)) }
{
    match construct {
        CodeNode::Enable(left, vars, right) => {
            let frame = Frame::Enabling(Vec::from_slice(alloc, vars)?, right.0);
            Ok(Some(kept(left.0, values, frame)))
        }
        _ => Ok(None),
    }
}

fn ending_side(
    alloc: Global,
    checked: &Checked,
    construct: &CodeNode,
    values: &[(u32, Value)],
) -> Result<Option<Entered>, Memory>
    ensures { IfOk result (EntersEnding (program_of checked.now) values.now
        (over_parts (behaviour_at (program_of checked.now)) (Some (node_of construct.now)))) }
{
    match construct {
        CodeNode::Enable(left, vars, right) => {
            let frame = Frame::Handing(Vec::from_slice(alloc, vars)?, right.0);
            Ok(Some(kept(left.0, values, frame)))
        }
        _ => Ok(None),
    }
}

// The left side of a disabling, which goes on, or terminates, and the right side, which takes over.
fn disabled_side(
    checked: &Checked,
    construct: &CodeNode,
    values: &[(u32, Value)],
) -> Option<Entered>
    ensures { EntersNode (program_of checked.now) Disstep values.now (node_of construct.now) result }
{
    match construct {
        CodeNode::Disable(left, right) => Some(kept(left.0, values, Frame::Disabling(right.0))),
        _ => None,
    }
}

fn ended_side(checked: &Checked, construct: &CodeNode, values: &[(u32, Value)]) -> Option<Entered>
    ensures { EntersNode (program_of checked.now) Disend values.now (node_of construct.now) result }
{
    match construct {
        CodeNode::Disable(left, _) => Some(kept(left.0, values, Frame::Same)),
        _ => None,
    }
}

fn disabling_side(
    checked: &Checked,
    construct: &CodeNode,
    values: &[(u32, Value)],
) -> Option<Entered>
    ensures { EntersNode (program_of checked.now) Distake values.now (node_of construct.now) result }
{
    match construct {
        CodeNode::Disable(_, right) => Some(kept(right.0, values, Frame::Same)),
        _ => None,
    }
}

// The gates, the variables and the number of the body of the process with this number.
fn definition(checked: &Checked, number: u32) -> Option<(&[Gate], &[(u32, Sort)], u32)>
    ensures some { IfSome result (λ r. slice_get (program_of checked.now).code number ≡
        Some (process (map gate_number r.0.now) (map variable_of r.1.now) r.2)) }
    ensures none { IfNone result ((formal : List ℕ) (xs : List Variable) (body : ℕ) →
        slice_get (program_of checked.now).code number ≡ Some (process formal xs body) → ⊥) }
{
    match node_at(checked, number) {
        None => None,
        Some(node) => match node {
            CodeNode::Process { gates, vars, body } => Some((gates, vars, body.0)),
            _ => None,
        },
    }
}

// The body of the process that is called, with the values of the arguments, relabelled to the gates of the call.
fn called_body(
    alloc: Global,
    prepared: &Prepared,
    called: u32,
    actual: &[Gate],
    terms: &[Term],
    values: &[(u32, Value)],
    budget: u64,
) -> Result<Option<Entered>, Stop>
    requires ready { IsReady (program_in prepared.now) }
    ensures enters { IfOk result (EntersOr (program_in prepared.now) Call values.now
        (call called (map gate_number actual.now) (map term_of terms.now))) }
    ensures fault { IfErr result (Stops (program_in prepared.now).theory budget
        (RuleAsks Call (assignment (program_in prepared.now).theory values.now)
        (call called (map gate_number actual.now) (map term_of terms.now))) Never) }
{
    match definition(prepared.checked, called) {
        None => Ok(None),
        Some((formal, vars, body)) => {
            let none = Vec::new(alloc);
            match bind_arguments(alloc, prepared, values, none, vars, terms, budget)? {
                None => Ok(None),
                Some(more) => {
                    let site = Site::Renamed(pairs(alloc, formal, actual)?, body);
                    let frame = Frame::Same;
                    Ok(Some(Entered {
                        site,
                        values: Some(more),
                        frame,
                    }))
                }
            }
        }
    }
}

// The body of a process that a construct calls.
fn body_of_call(
    alloc: Global,
    prepared: &Prepared,
    construct: &CodeNode,
    values: &[(u32, Value)],
    budget: u64,
) -> Result<Option<Entered>, Stop>
    requires ready { IsReady (program_in prepared.now) }
    ensures enters { IfOk result (EntersNode (program_in prepared.now) Call values.now (node_of construct.now)) }
    ensures fault { IfErr result (Stops (program_in prepared.now).theory budget
        (RuleAsks Call (assignment (program_in prepared.now).theory values.now)
        (over_parts (behaviour_at (program_in prepared.now)) (Some (node_of construct.now)))) Never) }
{
    match construct {
        CodeNode::Call {
            process,
            gates,
            values: terms,
        } => called_body(alloc, prepared, *process, gates, terms, values, budget),
        _ => Ok(None),
    }
}

// The body of a relabelled behaviour.
fn relabelled_body(
    alloc: Global,
    checked: &Checked,
    construct: &CodeNode,
    values: &[(u32, Value)],
) -> Result<Option<Entered>, Memory>
    ensures { IfOk result (EntersNode (program_of checked.now) Rel values.now (node_of construct.now)) }
{
    match construct {
        CodeNode::Relabel(pairs, part) => {
            let frame = Frame::Renamed(Vec::from_slice(alloc, pairs)?);
            Ok(Some(kept(part.0, values, frame)))
        }
        _ => Ok(None),
    }
}

// The part of a construct that a rule is over.
fn enter_construct(
    alloc: Global,
    prepared: &Prepared,
    construct: &CodeNode,
    values: &[(u32, Value)],
    row: &Row,
    budget: u64,
) -> Result<Option<Entered>, Stop>
    requires ready { IsReady (program_in prepared.now) }
    ensures enters { IfOk result (EntersNode (program_in prepared.now) row.now values.now (node_of construct.now)) }
    ensures fault { IfErr result (Stops (program_in prepared.now).theory budget
        (RuleAsks row.now (assignment (program_in prepared.now).theory values.now)
        (over_parts (behaviour_at (program_in prepared.now)) (Some (node_of construct.now)))) Never) }
{
    match row {
        Row::Chl => Ok(left_of_choice(prepared.checked, construct, values)),
        Row::Chr => Ok(right_of_choice(prepared.checked, construct, values)),
        Row::Val(slot) => Ok(valued_body(alloc, prepared.checked, construct, values, slot)?),
        Row::Gate(place) => Ok(gated_body(alloc, prepared.checked, construct, values, *place)?),
        Row::Guard => Ok(guarded_body(prepared.checked, construct, values)),
        Row::Let => bound_body(alloc, prepared, construct, values, budget),
        Row::Parl => Ok(left_alone(alloc, prepared.checked, construct, values)?),
        Row::Parr => Ok(right_alone(alloc, prepared.checked, construct, values)?),
        Row::Pass => Ok(passing_body(alloc, prepared.checked, construct, values)?),
        Row::Enstep => Ok(enabling_side(alloc, prepared.checked, construct, values)?),
        Row::Disstep => Ok(disabled_side(prepared.checked, construct, values)),
        Row::Disend => Ok(ended_side(prepared.checked, construct, values)),
        Row::Distake => Ok(disabling_side(prepared.checked, construct, values)),
        Row::Call => body_of_call(alloc, prepared, construct, values, budget),
        Row::Rel => Ok(relabelled_body(alloc, prepared.checked, construct, values)?),
    }
}

// The part of a relabelled behaviour that a rule is over: its body, under `rel`.
fn enter_renamed(
    alloc: Global,
    checked: &Checked,
    pairs: &[(Gate, Gate)],
    part: u32,
    values: &[(u32, Value)],
    row: &Row,
) -> Result<Option<Entered>, Memory>
    ensures { IfOk result (EntersOr (program_of checked.now) row.now values.now
        (relabel (map relabelling_of pairs.now) (behaviour_at (program_of checked.now) part))) }
{
    match row {
        Row::Rel => {
            let frame = Frame::Renamed(Vec::from_slice(alloc, pairs)?);
            Ok(Some(kept(part, values, frame)))
        }
        _ => Ok(None),
    }
}

// The part of a call that a rule is over: the body of its process.
fn enter_called(
    alloc: Global,
    prepared: &Prepared,
    called: u32,
    gates: &[Gate],
    terms: &[Term],
    values: &[(u32, Value)],
    row: &Row,
    budget: u64,
) -> Result<Option<Entered>, Stop>
    requires ready { IsReady (program_in prepared.now) }
    ensures enters { IfOk result (EntersOr (program_in prepared.now) row.now values.now
        (call called (map gate_number gates.now) (map term_of terms.now))) }
    ensures fault { IfErr result (Stops (program_in prepared.now).theory budget
        (RuleAsks row.now (assignment (program_in prepared.now).theory values.now)
        (call called (map gate_number gates.now) (map term_of terms.now))) Never) }
{
    match row {
        Row::Call => called_body(alloc, prepared, called, gates, terms, values, budget),
        _ => Ok(None),
    }
}

/// The part of a behaviour that a rule is over, with the values for its variables, and what stands round it; None where the rule doesn't
/// fit.
pub fn enter(
    alloc: Global,
    prepared: &Prepared,
    site: &Site,
    values: &[(u32, Value)],
    row: &Row,
    budget: u64,
) -> Result<Option<Entered>, Stop>
    requires ready { IsReady (program_in prepared.now) }
    ensures enters { IfOk result (EntersOr (program_in prepared.now) row.now values.now (standing (program_in prepared.now) site.now)) }
    ensures fault { IfErr result (Stops (program_in prepared.now).theory budget
        (RuleAsks row.now (assignment (program_in prepared.now).theory values.now) (standing (program_in prepared.now) site.now)) Never) }
{
    match site {
        Site::Renamed(pairs, part) => {
            Ok(enter_renamed(alloc, prepared.checked, pairs, *part, values, row)?)
        }
        Site::Called(called, gates, terms) => enter_called(
            alloc, prepared, *called, gates, terms, values, row, budget,
        ),
        Site::At(number) => match construct_at(prepared.checked, *number) {
            None => Ok(None),
            Some(construct) => enter_construct(alloc, prepared, construct, values, row, budget),
        },
    }
}

/// The body of a hiding that acts at a hidden gate; None where the behaviour is no hiding.
pub fn enter_hidden(
    alloc: Global,
    checked: &Checked,
    site: &Site,
    values: &[(u32, Value)],
) -> Result<Option<Entered>, Memory>
    requires ready { IsReady (program_of checked.now) }
    ensures enters { IfOk result (EntersHidden (program_of checked.now) values.now (standing (program_of checked.now) site.now)) }
{
    match site {
        Site::Renamed(_, _) | Site::Called(_, _, _) => Ok(None),
        Site::At(number) => match construct_at(checked, *number) {
            None => Ok(None),
            Some(construct) => hidden_body(alloc, checked, construct, values),
        },
    }
}

/// The left side of an enabling that terminates; None where the behaviour is no enabling.
pub fn enter_ending(
    alloc: Global,
    checked: &Checked,
    site: &Site,
    values: &[(u32, Value)],
) -> Result<Option<Entered>, Memory>
    requires ready { IsReady (program_of checked.now) }
    ensures enters { IfOk result (EntersEnding (program_of checked.now) values.now (standing (program_of checked.now) site.now)) }
{
    match site {
        Site::Renamed(_, _) | Site::Called(_, _, _) => Ok(None),
        Site::At(number) => match construct_at(checked, *number) {
            None => Ok(None),
            Some(construct) => ending_side(alloc, checked, construct, values),
        },
    }
}
