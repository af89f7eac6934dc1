// Nodes that are found again by what they are made of.

ghost use Rattle.std.specs.Prelude.{◌≡◌, IfSome, IsTrue, map, reverse};
ghost use Rattle.spec_core.specs.Terms.{apply, terms};
ghost use Rattle.value_nodes.specs.Nodes.{arguments, tree_at, IsNode};

use crate::hints::Hints;
use spec_core::items::Op;
use value_nodes::node::{Node, Nodes};

// Whether a node's arguments are these nodes.
fn has_arguments(nodes: &Nodes, node: u32, args: &[u32]) -> bool
    requires there { IsNode nodes.now node }
    ensures yes { IsTrue result → arguments (tree_at nodes.now node) ≡ terms (map (tree_at nodes.now) args.now) }
{
    match args {
        [] => match nodes.at(node) {
            Node::Constant(..) => true,
            Node::One { .. } => false,
            Node::More { .. } => false,
        },
        [first, others @ ..] => match nodes.at(node) {
            Node::Constant(..) => false,
            Node::One { arg, .. } => arg == *first && others.is_empty(),
            Node::More { arg, rest, .. } => arg == *first && has_arguments(nodes, rest, others),
        },
    }
}

// The node, where it stands for an operation over these nodes.
fn looked_up(nodes: &Nodes, hint: Option<u32>, op: Op, args: &[u32]) -> Option<u32>
    ensures there { IfSome result (λ n. IsNode nodes.now n) }
    ensures tree { IfSome result (λ n. tree_at nodes.now n ≡ apply op.0 (terms (map (tree_at nodes.now) args.now))) }
{
    match hint {
        None => None,
        Some(node) => {
            if (node as usize) < nodes.len()
                && nodes.op(node).0 == op.0
                && has_arguments(nodes, node, args)
            {
                Some(node)
            } else {
                None
            }
        }
    }
}

/// A node that stands for an operation over these nodes, where one is found under the mark. It recurs as deep as there are arguments, and
/// takes no memory.
pub fn interned(hints: &Hints, nodes: &Nodes, mark: u32, op: Op, args: &[u32]) -> Option<u32>
    ensures there { IfSome result (λ n. IsNode nodes.now n) }
    ensures tree { IfSome result (λ n. tree_at nodes.now n ≡ apply op.0 (terms (map (tree_at nodes.now) args.now))) }
{
    match looked_up(nodes, hints.first(mark), op, args) {
        Some(node) => Some(node),
        None => looked_up(nodes, hints.second(mark), op, args),
    }
}
