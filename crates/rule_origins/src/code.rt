// The behaviours at the numbers of the code.

ghost use Rattle.std.specs.Prelude.{◌≡◌, ◌<◌, ◌↔◌, IfOk, IfSome, IfNone, IsTrue, None, Some};
ghost use Rattle.spec_core.specs.Code.{node_of, program_of};
ghost use Rattle.spec_core.specs.Lists.{Each};
ghost use Rattle.spec_core.specs.Ready.{IsReady, IsProcess, parts_of};
ghost use Rattle.rule_model.specs.Behaviours.{behaviour_of, stop};
ghost use Rattle.rule_origins.specs.Parts.{over_parts, behaviour_at};

use rule_code::{node_at, open_part};
use rule_laws::laws::code_is_one_behaviour;
use rule_model::beh::Beh;
use spec_core::code::{Checked, CodeNode};
use spec_core::memory::Memory;
use std::alloc::Global;

/// The construct with this number, whose parts have lower numbers. It takes no memory.
#[tactic(auto, using(crate::proofs::Opening::opened_at))]
pub fn construct_at(checked: &Checked, number: u32) -> Option<&CodeNode>
    requires ready { IsReady (program_of checked.now) }
    ensures some { IfSome result (λ n.
        behaviour_at (program_of checked.now) number ≡ over_parts (behaviour_at (program_of checked.now)) (Some (node_of n.now))) }
    ensures none { IfNone result (behaviour_at (program_of checked.now) number ≡ stop) }
    ensures below { IfSome result (λ n. (IsProcess (node_of n.now) → ⊥) → Each (λ part. part < number) (parts_of (node_of n.now))) }
{
    match node_at(checked, number) {
        Some(node) => Some(node),
        None => None,
    }
}

// Whether a construct is a process's definition.
fn is_process(node: &CodeNode) -> bool
    ensures { IsTrue result ↔ IsProcess (node_of node.now) }
{
    match node {
        CodeNode::Process { .. } => true,
        _ => false,
    }
}

/// The behaviour with this number. It recurs as deep as its constructs nest.
#[tactic(auto, using(crate::proofs::Standing::standing_rows, crate::proofs::Opening::none_opened))]
pub fn behaviour(alloc: Global, checked: &Checked, number: u32) -> Result<Beh, Memory>
    requires ready { IsReady (program_of checked.now) }
    ensures here { IfOk result (λ b. behaviour_of b ≡ behaviour_at (program_of checked.now) number) }
{
    code_is_one_behaviour();
    match node_at(checked, number) {
        None => Ok(Beh::Stop),
        Some(node) => {
            if is_process(node) {
                Ok(Beh::Stop)
            } else {
                open_part(alloc, checked, number)
            }
        }
    }
}
