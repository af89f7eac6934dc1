// Whether two nodes stand for one value.

ghost use Rattle.std.specs.Prelude.{◌≡◌, ◌↔◌, IfOk, IsTrue, IsFalse};
ghost use Rattle.spec_core.specs.Lists.{Each};
ghost use Rattle.value_nodes.specs.Nodes.{tree_at, IsNode};
ghost use Rattle.value_nodes.specs.Parts.{IsAlike, IsPair};

use crate::node::{Node, Nodes};
use spec_core::memory::Memory;
use std::alloc::Global;

// Two nodes, or two nodes' arguments.
#[derive(Clone, Copy)]
enum Pair {
    Whole(u32, u32),
    Arguments(u32, u32),
}

/// Whether two nodes stand for one term. It doesn't recur.
pub fn same_value(alloc: Global, nodes: &Nodes, left: u32, right: u32) -> Result<bool, Memory>
    requires left { IsNode nodes.now left }
    requires right { IsNode nodes.now right }
    ensures decides { IfOk result (λ b. IsTrue b ↔ (tree_at nodes.now left ≡ tree_at nodes.now right)) }
{
    let mut pairs = Vec::new(alloc);
    pairs.push(Pair::Whole(left, right))?;
    for _turn in 0..u64::MAX {
        match pairs.pop() {
            None => return Ok(true),
            Some(pair) => {
                if !compare(nodes, pair, &mut pairs)? {
                    return Ok(false);
                }
            }
        }
    }
    Err(Memory)
}

// Compares the first operations of a pair, and leaves its other parts.
fn compare(nodes: &Nodes, pair: Pair, pairs: &mut Vec<Pair>) -> Result<bool, Memory>
    requires there { IsPair nodes.now pair }
    requires others { Each (IsPair nodes.now) pairs.old.items }
    ensures there { IfOk result (λ b. IsTrue b → Each (IsPair nodes.now) pairs.new.items) }
    ensures to { IfOk result (λ b.
        IsTrue b → Each (IsAlike nodes.now) pairs.new.items → IsAlike nodes.now pair × Each (IsAlike nodes.now) pairs.old.items) }
    ensures from { IfOk result (λ b.
        IsTrue b → IsAlike nodes.now pair → Each (IsAlike nodes.now) pairs.old.items → Each (IsAlike nodes.now) pairs.new.items) }
    ensures no { IfOk result (λ b. IsFalse b → IsAlike nodes.now pair → ⊥) }
{
    match pair {
        Pair::Whole(a, b) => {
            if a == b {
                return Ok(true);
            }
            if nodes.size(a) != nodes.size(b) {
                return Ok(false);
            }
            if nodes.op(a).0 != nodes.op(b).0 {
                return Ok(false);
            }
            pairs.push(Pair::Arguments(a, b))?;
            Ok(true)
        }
        Pair::Arguments(a, b) => match nodes.at(a) {
            Node::Constant(_, _) => match nodes.at(b) {
                Node::Constant(_, _) => Ok(true),
                Node::One { .. } => Ok(false),
                Node::More { .. } => Ok(false),
            },
            Node::One { arg, .. } => match nodes.at(b) {
                Node::Constant(_, _) => Ok(false),
                Node::One { arg: other, .. } => {
                    pairs.push(Pair::Whole(arg, other))?;
                    Ok(true)
                }
                Node::More { .. } => Ok(false),
            },
            Node::More { arg, rest, .. } => match nodes.at(b) {
                Node::Constant(_, _) => Ok(false),
                Node::One { .. } => Ok(false),
                Node::More {
                    arg: other,
                    rest: others,
                    ..
                } => {
                    pairs.push(Pair::Arguments(rest, others))?;
                    pairs.push(Pair::Whole(arg, other))?;
                    Ok(true)
                }
            },
        },
    }
}
