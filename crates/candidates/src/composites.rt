// What is listed of the composites of a tree.

ghost use Rattle.std.specs.Prelude.{◌≡◌, IfOk, IfSome};
ghost use Rattle.spec_core.specs.Theories.{theory_of};
ghost use Rattle.node_trees.specs.Shapes.{shape_of};
ghost use Rattle.candidate_composites.specs.Known.{placed_plans};
ghost use Rattle.candidates.specs.Composites.{AreAllOf, listed_or};

use candidate_composites::known::{expanded_composites, some_waits};
use log_states::pending::Pending;
use node_trees::branch::{Branch, Double, Single};
use node_trees::node::Node;
use spec_core::equation::DataSpec;
use spec_core::items::Gate;
use spec_core::memory::Memory;
use std::alloc::Global;
use symbolic_plans::composite::{ActionKind, OpenComposite};
use symbolic_plans::kind::{is_hidden, is_joint, renamed, same_kind};

/// What is listed of the composites of a tree.
#[derive(Drop)]
pub enum Composites<'a> {
    /// Nothing: each search makes those that it looks for.
    Unlisted,
    /// All of them, which somebody keeps.
    Lent(&'a [OpenComposite]),
    /// All of them.
    Listed(Vec<OpenComposite>),
}

// Whether the node may act at a gate: it can, or it isn't expanded.
fn node_may_act(node: &Node, gate: Gate) -> bool {
    match &node.work {
        None => true,
        Some(expansion) => {
            for composite in &expansion.composites {
                if same_kind(composite.kind, ActionKind::At(gate)) {
                    return true;
                }
            }
            false
        }
    }
}

// Whether the tree may act at a gate, as far as the gates of its operators say: it may have a composite there, or a gap. It makes none, and
// recurs as deep as operators nest.
fn may_act(branch: &Branch, gate: Gate) -> bool {
    match branch {
        Branch::Leaf(node) => node_may_act(node, gate),
        Branch::Ended => false,
        Branch::Over(Single::Hide(gates), part) => {
            !is_hidden(gates, ActionKind::At(gate)) && may_act(part, gate)
        }
        Branch::Over(Single::Relabel(pairs), part) => {
            for pair in pairs {
                if pair.1.0 == gate.0 && may_act(part, pair.0) {
                    return true;
                }
            }
            same_kind(renamed(pairs, ActionKind::At(gate)), ActionKind::At(gate))
                && may_act(part, gate)
        }
        Branch::Over(Single::Enable { .. }, part) => may_act(part, gate),
        Branch::Between(Double::Par(gates), left, right) => {
            if is_joint(gates, ActionKind::At(gate)) {
                may_act(left, gate) && may_act(right, gate)
            } else {
                may_act(left, gate) || may_act(right, gate)
            }
        }
        Branch::Between(Double::Choice, left, right)
        | Branch::Between(Double::Disable, left, right) => {
            may_act(left, gate) || may_act(right, gate)
        }
    }
}

// Whether the tree may act at the gate of one of these offers.
fn may_meet(branch: &Branch, offers: &[Pending]) -> bool {
    for pending in offers {
        if may_act(branch, pending.offer.gate) {
            return true;
        }
    }
    false
}

/// What is listed of the composites of a tree: those that are lent, where some are; else all, unless some node waits or one may meet a pending
/// offer. Where no offer may be met there will be searches for more than the action of one gate; but what is listed while some node waits
/// serves one look, which is mostly over at the first gap.
pub fn listed<'a>(
    alloc: Global,
    algebra: &DataSpec,
    tree: &'a Branch,
    lent: Option<&'a [OpenComposite]>,
    offers: &[Pending],
) -> Result<Composites<'a>, Memory>
    requires lent { IfSome lent (λ all. AreAllOf (theory_of algebra.now) (shape_of tree.now) all.now) }
    ensures listed { IfOk result (λ l. listed_or l (placed_plans (theory_of algebra.now) (shape_of tree.now)) ≡
        placed_plans (theory_of algebra.now) (shape_of tree.now)) }
{
    if let Some(all) = lent {
        return Ok(Composites::Lent(all));
    }
    if some_waits(tree) || may_meet(tree, offers) {
        return Ok(Composites::Unlisted);
    }
    let all = expanded_composites(alloc, algebra, tree)?;
    Ok(Composites::Listed(all))
}
