// Sets of generations.

ghost use Rattle.std.specs.Prelude.{ℕ, ◌≡◌, ◌||◌, IfOk, OnOk};
ghost use Rattle.node_trees.specs.Differences.{has, AreGenerationsOf};
ghost use Rattle.node_trees.specs.Posting.{is_there};
ghost use Rattle.node_trees.specs.Shapes.{shape_of, node_at};

use crate::branch::Branch;
use crate::origin::Gen;
use indexmap::IndexSet;
use spec_core::memory::Memory;
use std::alloc::Global;

/// Generations, each once.
#[derive(Drop)]
pub struct Generations {
    all: IndexSet<u128>,
}

impl Branch {
    // Adds the generations of this tree's nodes.
    fn put_generations(&self, generations: &mut Generations) -> Result<(), Memory>
        ensures added { OnOk result ((g : ℕ) →
            has generations.new g ≡ (has generations.old g || is_there (node_at g (shape_of self.now)))) }
    {
        match self {
            Branch::Leaf(node) => {
                generations.all.insert(node.generation.0)?;
                Ok(())
            }
            Branch::Ended => Ok(()),
            Branch::Over(_, part) => part.put_generations(generations),
            Branch::Between(_, left, right) => {
                left.put_generations(generations)?;
                right.put_generations(generations)
            }
        }
    }
}

impl Generations {
    /// The generations of a tree's nodes.
    pub fn of(alloc: Global, tree: &Branch) -> Result<Generations, Memory>
        ensures generations { IfOk result (λ set. AreGenerationsOf set (shape_of tree.now)) }
    {
        let mut generations = Generations {
            all: IndexSet::new(alloc),
        };
        tree.put_generations(&mut generations)?;
        Ok(generations)
    }

    /// Whether a generation is there. It takes no memory.
    pub fn has(&self, generation: Gen) -> bool
        ensures has { result ≡ has self.now generation.0 }
    {
        self.all.contains(&generation.0)
    }
}
