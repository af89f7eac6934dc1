// Nodes copied into another table, each with all of which it is made.

ghost use Rattle.std.specs.Prelude.{◌≡◌, [], IfOk, OnOk};
ghost use Rattle.spec_core.specs.Lists.{Each};
ghost use Rattle.value_nodes.specs.Copies.{AreCopies, IsRowOf};
ghost use Rattle.value_nodes.specs.Nodes.{tree_at, cost_at, IsNode, IsLonger};

use crate::node::{Node, Nodes};
use spec_core::memory::Memory;
use std::alloc::Global;
use std::marker::Model;

/// For each node of a table the number of its copy in another table, where it has one. A contract sees it as a list.
#[derive(Drop)]
pub struct Copies {
    numbers: Vec<Option<u32>>,
}

impl Model for Copies {
    ghost use Rattle.std.specs.Prelude.{ℕ, List, Option};

    ghost Value = { List (Option ℕ) };

    ghost view = { λ copies. copies.numbers.items };
}

impl Copies {
    /// No copies yet of the nodes of a table, in a table without nodes.
    pub fn new(alloc: Global, nodes: &Nodes) -> Result<Copies, Memory>
        ensures none { IfOk result (λ copies. AreCopies nodes.now [] copies) }
    {
        Ok(Copies {
            numbers: Vec::from_elem(alloc, None, nodes.len())?,
        })
    }

    /// The number of a node's copy, which is made where it isn't there yet, as are those of the nodes of which it is made. It
    /// doesn't recur.
    pub fn copy(
        &mut self,
        alloc: Global,
        from: &Nodes,
        into: &mut Nodes,
        node: u32,
    ) -> Result<u32, Memory>
        requires copies { AreCopies from.now into.old self.old }
        requires there { IsNode from.now node }
        ensures copies { IfOk result (λ n. AreCopies from.now into.new self.new) }
        ensures longer { IfOk result (λ n. IsLonger into.old into.new) }
        ensures there { IfOk result (λ n. IsNode into.new n) }
        ensures tree { IfOk result (λ n. tree_at into.new n ≡ tree_at from.now node) }
        ensures cost { IfOk result (λ n. cost_at into.new n ≡ cost_at from.now node) }
    {
        let mut waiting = Vec::new(alloc);
        for _turn in 0..u64::MAX {
            match self.numbers[node as usize] {
                Some(copy) => return Ok(copy),
                None => {
                    let next = waiting.pop().unwrap_or(node);
                    self.visit(from, into, &mut waiting, next)?;
                }
            }
        }
        Err(Memory)
    }

    // Copies a node whose parts have copies; where one has none, the node waits until that is copied.
    fn visit(
        &mut self,
        from: &Nodes,
        into: &mut Nodes,
        waiting: &mut Vec<u32>,
        node: u32,
    ) -> Result<(), Memory>
        requires copies { AreCopies from.now into.old self.old }
        requires there { IsNode from.now node }
        requires waiting { Each (IsNode from.now) waiting.old.items }
        ensures copies { OnOk result (AreCopies from.now into.new self.new) }
        ensures longer { OnOk result (IsLonger into.old into.new) }
        ensures waiting { OnOk result (Each (IsNode from.now) waiting.new.items) }
    {
        match from.at(node) {
            Node::Constant(op, cost) => self.keep(from, into, node, Node::Constant(op, cost)),
            Node::One {
                op,
                size,
                arg,
                cost,
            } => match self.numbers[arg as usize] {
                None => wait(from, waiting, node, arg),
                Some(arg) => self.keep(
                    from,
                    into,
                    node,
                    Node::One {
                        op,
                        size,
                        arg,
                        cost,
                    },
                ),
            },
            Node::More {
                op,
                size,
                arg,
                rest,
                cost,
            } => match self.numbers[arg as usize] {
                None => wait(from, waiting, node, arg),
                Some(first) => match self.numbers[rest as usize] {
                    None => wait(from, waiting, node, rest),
                    Some(others) => self.keep(
                        from,
                        into,
                        node,
                        Node::More {
                            op,
                            size,
                            arg: first,
                            rest: others,
                            cost,
                        },
                    ),
                },
            },
        }
    }

    // Puts the copy of a node into the new table, and keeps its number.
    fn keep(&mut self, from: &Nodes, into: &mut Nodes, node: u32, row: Node) -> Result<(), Memory>
        requires copies { AreCopies from.now into.old self.old }
        requires there { IsNode from.now node }
        requires row { IsRowOf from.now into.old node row }
        ensures copies { OnOk result (AreCopies from.now into.new self.new) }
        ensures longer { OnOk result (IsLonger into.old into.new) }
    {
        let copy = into.add(row)?;
        self.numbers[node as usize] = Some(copy);
        Ok(())
    }
}

// Lets a node wait, and before it a part of it.
fn wait(from: &Nodes, waiting: &mut Vec<u32>, node: u32, part: u32) -> Result<(), Memory>
    requires there { IsNode from.now node }
    requires part { IsNode from.now part }
    requires waiting { Each (IsNode from.now) waiting.old.items }
    ensures waiting { OnOk result (Each (IsNode from.now) waiting.new.items) }
{
    waiting.push(node)?;
    waiting.push(part)?;
    Ok(())
}
