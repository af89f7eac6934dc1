// Nodes of the tree.

ghost use Rattle.std.specs.Prelude.{◌≡◌, ◌↔◌, IfOk, IsTrue, None};
ghost use Rattle.node_trees.specs.Shapes.{work_of, held_of};

use crate::expansion::Expansion;
use crate::origin::{Gen, Origin};
use spec_core::memory::Memory;
use std::alloc::Global;

/// A node: its generation, its origin, and what its origin can do once it is expanded.
#[derive(Drop)]
pub struct Node {
    pub generation: Gen,
    pub origin: Origin,
    pub work: Option<Expansion>,
}

// An equal expansion, if there is one.
fn copy_work(alloc: Global, work: &Option<Expansion>) -> Result<Option<Expansion>, Memory>
    ensures { IfOk result (λ w. work_of w ≡ work_of work.now) }
{
    match work {
        None => Ok(None),
        Some(expansion) => Ok(Some(expansion.copy(alloc)?)),
    }
}

impl Node {
    /// Whether the node isn't expanded. It takes no memory.
    pub fn waits(&self) -> bool
        ensures decides { IsTrue result ↔ ((held_of self.now).work ≡ None) }
    {
        self.work.is_none()
    }

    /// An equal node.
    #[inline(never)]
    pub fn copy(&self, alloc: Global) -> Result<Node, Memory>
        ensures equal { IfOk result (λ n. held_of n ≡ held_of self.now) }
    {
        let origin = self.origin.copy(alloc)?;
        let work = copy_work(alloc, &self.work)?;
        Ok(Node {
            generation: self.generation,
            origin,
            work,
        })
    }
}
