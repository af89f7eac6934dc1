// A node's value as a list of operations.

ghost use Rattle.std.specs.Prelude.{◌≡◌, ◌++◌, IfOk, OnOk, map};
ghost use Rattle.spec_core.specs.Lists.{Each};
ghost use Rattle.spec_core.specs.Numbers.{op_number};
ghost use Rattle.spec_core.specs.Terms.{preorder};
ghost use Rattle.value_nodes.specs.Nodes.{tree_at, IsNode};
ghost use Rattle.value_nodes.specs.Parts.{word, words, IsPart};

use crate::node::{Node, Nodes};
use spec_core::items::Op;
use spec_core::memory::Memory;
use spec_core::value::Value;
use std::alloc::Global;

// A node, or a node's arguments.
#[derive(Clone, Copy)]
enum Part {
    Whole(u32),
    Arguments(u32),
}

/// The value for which a node stands. It doesn't recur.
pub fn spell(alloc: Global, nodes: &Nodes, node: u32) -> Result<Value, Memory>
    requires there { IsNode nodes.now node }
    ensures spelled { IfOk result (λ value. value ≡ preorder (tree_at nodes.now node)) }
{
    let mut ops = Vec::new(alloc);
    let mut parts = Vec::new(alloc);
    parts.push(Part::Whole(node))?;
    for _turn in 0..u64::MAX {
        match parts.pop() {
            None => return Ok(Value::new(ops)),
            Some(part) => spell_part(nodes, part, &mut ops, &mut parts)?,
        }
    }
    Err(Memory)
}

// Spells the first operation of a part, and leaves its other parts.
fn spell_part(
    nodes: &Nodes,
    part: Part,
    ops: &mut Vec<Op>,
    parts: &mut Vec<Part>,
) -> Result<(), Memory>
    requires there { IsPart nodes.now part }
    requires others { Each (IsPart nodes.now) parts.old.items }
    ensures there { OnOk result (Each (IsPart nodes.now) parts.new.items) }
    ensures spelled { OnOk result
        (map op_number ops.new.items ++ words nodes.now parts.new.items ≡
        map op_number ops.old.items ++ (word nodes.now part ++ words nodes.now parts.old.items)) }
{
    match part {
        Part::Whole(node) => {
            ops.push(nodes.op(node))?;
            parts.push(Part::Arguments(node))?;
            Ok(())
        }
        Part::Arguments(node) => match nodes.at(node) {
            Node::Constant(_, _) => Ok(()),
            Node::One { arg, .. } => {
                parts.push(Part::Whole(arg))?;
                Ok(())
            }
            Node::More { arg, rest, .. } => {
                parts.push(Part::Arguments(rest))?;
                parts.push(Part::Whole(arg))?;
                Ok(())
            }
        },
    }
}
