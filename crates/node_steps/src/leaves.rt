// What is done and left of actions and exits.

ghost use Rattle.std.specs.Prelude.{Some, IfOk, IfErr};
ghost use Rattle.spec_core.specs.Code.{node_of, program_of};
ghost use Rattle.spec_core.specs.Executable.{IsExecutable};
ghost use Rattle.spec_core.specs.Ready.{IsReady};
ghost use Rattle.rule_model.specs.Derivations.{pre, exiting};
ghost use Rattle.rule_origins.specs.Parts.{over_parts, behaviour_at};
ghost use Rattle.rule_origins.specs.Values.{assignment};
ghost use Rattle.node_values.specs.Stops.{Stops, Never};
ghost use Rattle.symbolic_reach.specs.Asking.{ActionAsks, TerminationAsks};
ghost use Rattle.node_values.specs.Prepared.{program_in};
ghost use Rattle.node_steps.specs.Frames.{standing};
ghost use Rattle.node_steps.specs.Turns.{LeafTurnsOr, InnerTurnsOr};

use crate::fields::{Fields, known_exit, known_fields, stays};
use crate::turn::{Site, Turn};
use node_trees::rest::{Deed, Rest};
use node_values::Prepared;
use node_values::stop::Stop;
use rule_origins::code::construct_at;
use spec_core::code::{Checked, CodeNode};
use spec_core::memory::Memory;
use spec_core::value::Value;
use std::alloc::Global;

// What an action does, and what is left then.
fn action_acts(
    alloc: Global,
    prepared: &Prepared,
    construct: &CodeNode,
    values: &[(u32, Value)],
    from: u32,
    budget: u64,
) -> Result<Option<Turn>, Stop>
    requires executable { IsExecutable (program_in prepared.now).theory }
    ensures turns { IfOk result (LeafTurnsOr (program_in prepared.now) from (assignment (program_in prepared.now).theory values.now)
        (over_parts (behaviour_at (program_in prepared.now)) (Some (node_of construct.now))) pre) }
    ensures fault { IfErr result (Stops (program_in prepared.now).theory budget
        (ActionAsks (assignment (program_in prepared.now).theory values.now)
        (over_parts (behaviour_at (program_in prepared.now)) (Some (node_of construct.now)))) Never) }
{
    match construct {
        CodeNode::Act {
            gate,
            fields,
            guard: _,
            rest,
        } => match known_fields(alloc, prepared, values, fields, from, budget)? {
            None => Ok(None),
            Some(found) => {
                let Fields { known, binders } = found;
                let rest = stays(alloc, rest.0, values, binders)?;
                let action = Deed::At(*gate, known);
                Ok(Some(Turn { action, rest }))
            }
        },
        _ => Ok(None),
    }
}

// What an internal action does, and what is left then.
fn inner_acts(
    alloc: Global,
    checked: &Checked,
    construct: &CodeNode,
    values: &[(u32, Value)],
) -> Result<Option<Turn>, Memory>
    ensures turns { IfOk result (InnerTurnsOr (program_of checked.now) (assignment (program_of checked.now).theory values.now)
        (over_parts (behaviour_at (program_of checked.now)) (Some (node_of construct.now)))) }
{
    match construct {
        CodeNode::Inner(part) => {
            let rest = stays(alloc, part.0, values, Vec::new(alloc))?;
            let action = Deed::Inner;
            Ok(Some(Turn { action, rest }))
        }
        _ => Ok(None),
    }
}

// What an exit does, and what is left then.
fn exit_terminates(
    alloc: Global,
    prepared: &Prepared,
    construct: &CodeNode,
    values: &[(u32, Value)],
    from: u32,
    budget: u64,
) -> Result<Option<Turn>, Stop>
    requires executable { IsExecutable (program_in prepared.now).theory }
    ensures turns { IfOk result (LeafTurnsOr (program_in prepared.now) from (assignment (program_in prepared.now).theory values.now)
        (over_parts (behaviour_at (program_in prepared.now)) (Some (node_of construct.now))) exiting) }
    ensures fault { IfErr result (Stops (program_in prepared.now).theory budget
        (TerminationAsks (assignment (program_in prepared.now).theory values.now)
        (over_parts (behaviour_at (program_in prepared.now)) (Some (node_of construct.now)))) Never) }
{
    match construct {
        CodeNode::Exit(fields) => match known_exit(alloc, prepared, values, fields, from, budget)? {
            None => Ok(None),
            Some(known) => {
                let action = Deed::Exit(known);
                let rest = Rest::Ended;
                Ok(Some(Turn { action, rest }))
            }
        },
        _ => Ok(None),
    }
}

/// What an action does, and what is left then; None where the behaviour is none, or does nothing.
pub fn acts(
    alloc: Global,
    prepared: &Prepared,
    site: &Site,
    values: &[(u32, Value)],
    from: u32,
    budget: u64,
) -> Result<Option<Turn>, Stop>
    requires ready { IsReady (program_in prepared.now) }
    ensures turns { IfOk result (LeafTurnsOr (program_in prepared.now) from (assignment (program_in prepared.now).theory values.now)
        (standing (program_in prepared.now) site.now) pre) }
    ensures fault { IfErr result (Stops (program_in prepared.now).theory budget
        (ActionAsks (assignment (program_in prepared.now).theory values.now) (standing (program_in prepared.now) site.now)) Never) }
{
    match site {
        Site::Renamed(_, _) | Site::Called(_, _, _) => Ok(None),
        Site::At(number) => match construct_at(prepared.checked, *number) {
            None => Ok(None),
            Some(construct) => action_acts(alloc, prepared, construct, values, from, budget),
        },
    }
}

/// What an internal action does, and what is left then; None where the behaviour is none.
pub fn acts_inside(
    alloc: Global,
    checked: &Checked,
    site: &Site,
    values: &[(u32, Value)],
) -> Result<Option<Turn>, Memory>
    requires ready { IsReady (program_of checked.now) }
    ensures turns { IfOk result (InnerTurnsOr (program_of checked.now) (assignment (program_of checked.now).theory values.now)
        (standing (program_of checked.now) site.now)) }
{
    match site {
        Site::Renamed(_, _) | Site::Called(_, _, _) => Ok(None),
        Site::At(number) => match construct_at(checked, *number) {
            None => Ok(None),
            Some(construct) => inner_acts(alloc, checked, construct, values),
        },
    }
}

/// What an exit does, and what is left then; None where the behaviour is none, or does nothing.
pub fn terminates(
    alloc: Global,
    prepared: &Prepared,
    site: &Site,
    values: &[(u32, Value)],
    from: u32,
    budget: u64,
) -> Result<Option<Turn>, Stop>
    requires ready { IsReady (program_in prepared.now) }
    ensures turns { IfOk result (LeafTurnsOr (program_in prepared.now) from (assignment (program_in prepared.now).theory values.now)
        (standing (program_in prepared.now) site.now) exiting) }
    ensures fault { IfErr result (Stops (program_in prepared.now).theory budget
        (TerminationAsks (assignment (program_in prepared.now).theory values.now) (standing (program_in prepared.now) site.now)) Never) }
{
    match site {
        Site::Renamed(_, _) | Site::Called(_, _, _) => Ok(None),
        Site::At(number) => match construct_at(prepared.checked, *number) {
            None => Ok(None),
            Some(construct) => exit_terminates(alloc, prepared, construct, values, from, budget),
        },
    }
}
