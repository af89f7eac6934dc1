// Processes by their numbers.

ghost use Rattle.std.specs.Prelude.{ℕ, List, ◌≡◌, IfOk, IfSome, IfNone, Some, map};
ghost use Rattle.std.specs.List.{slice_get};
ghost use Rattle.spec_core.specs.Code.{Variable, node_of, process, program_of, variable_of};
ghost use Rattle.spec_core.specs.Numbers.{gate_number};
ghost use Rattle.spec_core.specs.Ready.{IsReady, IsProcess};
ghost use Rattle.rule_model.specs.Behaviours.{Behaviour, behaviour_of};
ghost use Rattle.rule_model.specs.Code.{StandsAt, IsDefinition};

use crate::parts::{node_at, open_part};
use rule_model::beh::Beh;
use spec_core::code::{Checked, CodeNode, Part};
use spec_core::items::{Gate, Sort};
use spec_core::memory::Memory;
use std::alloc::Global;

/// The gates, the variables and the body of a process.
#[derive(Drop)]
pub struct Definition {
    pub gates: Vec<Gate>,
    pub vars: Vec<(u32, Sort)>,
    pub body: Beh,
}

// The gates, the variables and the body of a process's definition. None for any other construct.
fn as_process(node: &CodeNode) -> Option<(&[Gate], &[(u32, Sort)], Part)>
    ensures some { IfSome result (λ r. node_of node.now ≡ process (map gate_number r.0.now) (map variable_of r.1.now) r.2.0) }
    ensures none { IfNone result (IsProcess (node_of node.now) → ⊥) }
{
    match node {
        CodeNode::Process { gates, vars, body } => Some((gates, vars, *body)),
        _ => None,
    }
}

/// The process with this number; None where the number names none. It recurs as deep as the constructs of its body nest.
pub fn process_at(
    alloc: Global,
    checked: &Checked,
    process: u32,
) -> Result<Option<Definition>, Memory>
    requires ready { IsReady (program_of checked.now) }
    ensures some { IfOk result (λ o. IfSome o (λ d.
        IsDefinition (program_of checked.now) process (map gate_number d.gates.items) (map variable_of d.vars.items)
        (behaviour_of d.body))) }
    ensures none { IfOk result (λ o. IfNone o ((gates : List ℕ) (xs : List Variable) (body : Behaviour) →
        IsDefinition (program_of checked.now) process gates xs body → ⊥)) }
{
    match node_at(checked, process) {
        None => Ok(None),
        Some(node) => match as_process(node) {
            None => Ok(None),
            Some((gates, vars, body)) => {
                let body = body_of(alloc, checked, process, gates, vars, body)?;
                let gates = Vec::from_slice(alloc, gates)?;
                let vars = Vec::from_slice(alloc, vars)?;
                Ok(Some(Definition { gates, vars, body }))
            }
        },
    }
}

// The body of a process.
fn body_of(
    alloc: Global,
    checked: &Checked,
    number: u32,
    gates: &[Gate],
    vars: &[(u32, Sort)],
    body: Part,
) -> Result<Beh, Memory>
    requires ready { IsReady (program_of checked.now) }
    requires here { slice_get (program_of checked.now).code number ≡
        Some (process (map gate_number gates.now) (map variable_of vars.now) body.0) }
    ensures stands { IfOk result (λ b. StandsAt (program_of checked.now) body.0 (behaviour_of b)) }
{
    open_part(alloc, checked, body.0)
}
