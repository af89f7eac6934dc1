// The values that are there.

ghost use Rattle.std.specs.Prelude.{◌≡◌, ◌∷◌, [], IfOk, OnOk, MatchOption, length, map, take, drop, reverse};
ghost use Rattle.spec_core.specs.Lists.{Each};
ghost use Rattle.value_nodes.specs.Copies.{AreCopies};
ghost use Rattle.value_nodes.specs.Nodes.{tree_at, IsNode, IsLonger};

use spec_core::memory::Memory;
use std::alloc::{AllocError, Global};
use std::marker::Model;
use value_nodes::copies::Copies;
use value_nodes::node::Nodes;

/// The values that are there, by their nodes. A contract sees them as a list, the last one first.
#[derive(Drop)]
pub struct Values {
    nodes: Vec<u32>,
}

impl Model for Values {
    ghost use Rattle.std.specs.Prelude.{ℕ, List, reverse};

    ghost Value = { List ℕ };

    ghost view = { λ v. reverse v.nodes.items };
}

impl Values {
    /// No values.
    pub fn new(alloc: Global) -> Values
        ensures none { result ≡ [] }
    {
        Values {
            nodes: Vec::new(alloc),
        }
    }

    /// One more value.
    pub fn push(&mut self, node: u32) -> Result<(), AllocError>
        ensures pushed { OnOk result (self.new ≡ node ∷ self.old) }
    {
        self.nodes.push(node)?;
        Ok(())
    }

    /// Takes the last value.
    pub fn pop(&mut self) -> Option<u32>
        ensures popped { MatchOption result ((self.old ≡ []) × (self.new ≡ [])) (λ n. self.old ≡ n ∷ self.new) }
    {
        self.nodes.pop()
    }

    /// How many values there are. It takes no memory.
    pub fn len(&self) -> usize
        ensures counted { result ≡ length self.now }
    {
        self.nodes.len()
    }

    /// The values, the last one last. It takes no memory.
    pub fn all(&self) -> &[u32]
        ensures seen { result.now ≡ reverse self.now }
    {
        &self.nodes
    }

    /// So many values from the top, or all of them, by themselves.
    pub fn copy_top(&self, alloc: Global, count: usize) -> Result<Values, AllocError>
        ensures copied { IfOk result (λ top. top ≡ take count self.now) }
    {
        Ok(Values {
            nodes: Vec::from_slice(alloc, self.top(count))?,
        })
    }

    /// So many values from the top, or all of them, the last one last.
    pub fn top(&self, count: usize) -> &[u32]
        ensures seen { result.now ≡ reverse (take count self.now) }
    {
        &self.nodes[self.nodes.len().saturating_sub(count)..]
    }

    /// Takes so many values from the top, or all of them.
    pub fn forget(&mut self, count: usize)
        ensures dropped { self.new ≡ drop count self.old }
    {
        self.nodes.truncate(self.nodes.len().saturating_sub(count));
    }

    /// Has the copies of nodes in another table in place of the nodes.
    pub fn follow(
        &mut self,
        alloc: Global,
        from: &Nodes,
        into: &mut Nodes,
        copies: &mut Copies,
    ) -> Result<(), Memory>
        requires copies { AreCopies from.now into.old copies.old }
        requires there { Each (IsNode from.now) self.old }
        ensures copies { OnOk result (AreCopies from.now into.new copies.new) }
        ensures longer { OnOk result (IsLonger into.old into.new) }
        ensures there { OnOk result (Each (IsNode into.new) self.new) }
        ensures same { OnOk result (map (tree_at into.new) self.new ≡ map (tree_at from.now) self.old) }
    {
        let mut nodes = Vec::new(alloc);
        for node in &self.nodes {
            let copy = copies.copy(alloc, from, into, *node)?;
            nodes.push(copy)?;
        }
        self.nodes = nodes;
        Ok(())
    }
}
