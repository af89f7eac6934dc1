// The behaviours that stand at numbers of the code.

ghost use Rattle.std.specs.Prelude.{◌≡◌, ◌<◌, IfOk, IfSome, IfNone, None, Some};
ghost use Rattle.std.specs.List.{slice_get};
ghost use Rattle.spec_core.specs.Code.{node_of, program_of};
ghost use Rattle.spec_core.specs.Lists.{Each};
ghost use Rattle.spec_core.specs.Ready.{IsReady, IsProcess, NamesBehaviour, parts_of};
ghost use Rattle.rule_model.specs.Behaviours.{behaviour_of};
ghost use Rattle.rule_model.specs.Code.{StandsAt, IsStart};

use rule_model::beh::Beh;
use rule_model::parts::{copy_act_fields, copy_bindings, copy_exit_fields, copy_guard};
use spec_core::code::{Checked, CodeNode};
use spec_core::memory::Memory;
use spec_core::term::copy_terms;
use std::alloc::Global;

/// The specification's behaviour. It recurs as deep as its constructs nest.
pub fn start(alloc: Global, checked: &Checked) -> Result<Beh, Memory>
    requires ready { IsReady (program_of checked.now) }
    ensures start { IfOk result (λ b. IsStart (program_of checked.now) (behaviour_of b)) }
{
    open_part(alloc, checked, checked.start)
}

/// The construct with this number, if there is one. It takes no memory.
pub fn node_at(checked: &Checked, part: u32) -> Option<&CodeNode>
    ensures some { IfSome result (λ n. slice_get (program_of checked.now).code part ≡ Some (node_of n.now)) }
    ensures none { IfNone result (slice_get (program_of checked.now).code part ≡ None) }
{
    checked.code.get(part as usize)
}

// The construct of behaviour with this number.
fn construct_at(checked: &Checked, part: u32) -> &CodeNode
    requires ready { IsReady (program_of checked.now) }
    requires named { NamesBehaviour (program_of checked.now) part }
    ensures here { slice_get (program_of checked.now).code part ≡ Some (node_of result.now) }
    ensures behaviour { IsProcess (node_of result.now) → ⊥ }
    ensures named { Each (NamesBehaviour (program_of checked.now)) (parts_of (node_of result.now)) }
    ensures below { Each (λ other. other < part) (parts_of (node_of result.now)) }
{
    match node_at(checked, part) {
        Some(node) => node,
        None => unreachable!(),
    }
}

/// The behaviour that stands at the number of a construct of behaviour. It recurs as deep as its constructs nest.
pub fn open_part(alloc: Global, checked: &Checked, part: u32) -> Result<Beh, Memory>
    requires ready { IsReady (program_of checked.now) }
    requires named { NamesBehaviour (program_of checked.now) part }
    ensures stands { IfOk result (λ b. StandsAt (program_of checked.now) part (behaviour_of b)) }
{
    match construct_at(checked, part) {
        CodeNode::Stop => Ok(Beh::Stop),
        CodeNode::Exit(fields) => Ok(Beh::Exit(copy_exit_fields(alloc, fields)?)),
        CodeNode::Inner(rest) => {
            let rest = open_part(alloc, checked, rest.0)?;
            Beh::inner(alloc, rest)
        }
        CodeNode::Act {
            gate,
            fields,
            guard,
            rest,
        } => {
            let rest = open_part(alloc, checked, rest.0)?;
            let fields = copy_act_fields(alloc, fields)?;
            let guard = copy_guard(alloc, guard)?;
            Beh::act(alloc, *gate, fields, guard, rest)
        }
        CodeNode::Choice(left, right) => {
            let left = open_part(alloc, checked, left.0)?;
            let right = open_part(alloc, checked, right.0)?;
            Beh::choice(alloc, left, right)
        }
        CodeNode::Guard(left, right, body) => {
            let body = open_part(alloc, checked, body.0)?;
            let left = left.copy(alloc)?;
            let right = right.copy(alloc)?;
            Beh::guarded(alloc, left, right, body)
        }
        CodeNode::Let(bindings, body) => {
            let body = open_part(alloc, checked, body.0)?;
            let bindings = copy_bindings(alloc, bindings)?;
            Beh::bound(alloc, bindings, body)
        }
        CodeNode::Values(x, sort, body) => {
            let body = open_part(alloc, checked, body.0)?;
            Beh::value_choice(alloc, *x, *sort, body)
        }
        CodeNode::Gates(gate, gates, body) => {
            let body = open_part(alloc, checked, body.0)?;
            let gates = Vec::from_slice(alloc, gates)?;
            Beh::gate_choice(alloc, *gate, gates, body)
        }
        CodeNode::Par(gates, left, right) => {
            let left = open_part(alloc, checked, left.0)?;
            let right = open_part(alloc, checked, right.0)?;
            let gates = gates.copy(alloc)?;
            Beh::parallel(alloc, gates, left, right)
        }
        CodeNode::Hide(gates, body) => {
            let body = open_part(alloc, checked, body.0)?;
            let gates = Vec::from_slice(alloc, gates)?;
            Beh::hide(alloc, gates, body)
        }
        CodeNode::Enable(left, vars, right) => {
            let left = open_part(alloc, checked, left.0)?;
            let right = open_part(alloc, checked, right.0)?;
            let vars = Vec::from_slice(alloc, vars)?;
            Beh::enable(alloc, left, vars, right)
        }
        CodeNode::Disable(left, right) => {
            let left = open_part(alloc, checked, left.0)?;
            let right = open_part(alloc, checked, right.0)?;
            Beh::disable(alloc, left, right)
        }
        CodeNode::Call {
            process,
            gates,
            values,
        } => {
            let gates = Vec::from_slice(alloc, gates)?;
            let values = copy_terms(alloc, values)?;
            Ok(Beh::Call {
                process: *process,
                gates,
                values,
            })
        }
        CodeNode::Relabel(pairs, body) => {
            let body = open_part(alloc, checked, body.0)?;
            let pairs = Vec::from_slice(alloc, pairs)?;
            Beh::relabel(alloc, pairs, body)
        }
        CodeNode::Process { .. } => unreachable!(),
    }
}
