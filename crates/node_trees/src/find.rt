// Nodes found by their generations, and expanded.

ghost use Rattle.std.specs.Prelude.{◌≡◌, ◌++◌, true, false, IfOk, IfSome, IfNone, OnOk, None, Some};
ghost use Rattle.node_trees.specs.Differences.{AreGenerationsOf, IsDifference, missing};
ghost use Rattle.node_trees.specs.Posting.{is_there, posted_first};
ghost use Rattle.node_trees.specs.Rests.{expansion_of};
ghost use Rattle.node_trees.specs.Shapes.{Shape, shape_of, held_of, node_at};

use crate::branch::Branch;
use crate::expansion::Expansion;
use crate::generations::Generations;
use crate::node::Node;
use crate::origin::Gen;
use spec_core::memory::Memory;
use std::alloc::Global;

impl Branch {
    /// The node of this generation, the first from the left. It takes no memory.
    pub fn node_at(&self, generation: Gen) -> Option<&Node>
        ensures some { IfSome result (λ n. node_at generation.0 (shape_of self.now) ≡ Some (held_of n.now)) }
        ensures none { IfNone result (node_at generation.0 (shape_of self.now) ≡ None) }
    {
        match self {
            Branch::Leaf(node) => {
                if node.generation.0 == generation.0 {
                    Some(node)
                } else {
                    None
                }
            }
            Branch::Ended => None,
            Branch::Over(_, part) => part.node_at(generation),
            Branch::Between(_, left, right) => match left.node_at(generation) {
                Some(node) => Some(node),
                None => right.node_at(generation),
            },
        }
    }

    // Expands the first node of this generation, from the left, with the expansion, which is taken then; whether there is such a node. Where
    // there is none, all stays. The expansion isn't moved on the way.
    fn post_first(&mut self, generation: Gen, work: &mut Option<Expansion>) -> bool
        ensures posted { IfSome work.old (λ w. shape_of self.new ≡ posted_first generation.0 (expansion_of w) (shape_of self.old)) }
        ensures found { result ≡ is_there (node_at generation.0 (shape_of self.old)) }
        ensures missed { result ≡ false → (work.new ≡ work.old) × (shape_of self.new ≡ shape_of self.old) }
    {
        match self {
            Branch::Leaf(node) => {
                if node.generation.0 == generation.0 {
                    node.work = work.take();
                    true
                } else {
                    false
                }
            }
            Branch::Ended => false,
            Branch::Over(_, part) => part.post_first(generation, work),
            Branch::Between(_, left, right) => {
                left.post_first(generation, work) || right.post_first(generation, work)
            }
        }
    }

    /// Expands the first node of this generation, from the left. It takes no memory.
    pub fn post(&mut self, generation: Gen, work: Expansion)
        ensures posted { shape_of self.new ≡ posted_first generation.0 (expansion_of work) (shape_of self.old) }
    {
        let mut work = Some(work);
        self.post_first(generation, &mut work);
    }

    // Appends the generations of this tree's nodes that aren't those of another tree, from the left.
    fn put_missing(&self, others: &Generations, generations: &mut Vec<Gen>) -> Result<(), Memory>
        ensures missing { OnOk result ((other : Shape) → AreGenerationsOf others.now other →
            generations.new.items ≡ generations.old.items ++ missing (shape_of self.now) other) }
    {
        match self {
            Branch::Leaf(node) => {
                if others.has(node.generation) {
                    Ok(())
                } else {
                    generations.push(node.generation)?;
                    Ok(())
                }
            }
            Branch::Ended => Ok(()),
            Branch::Over(_, part) => part.put_missing(others, generations),
            Branch::Between(_, left, right) => {
                left.put_missing(others, generations)?;
                right.put_missing(others, generations)
            }
        }
    }
}

/// The generations of the first tree that the second doesn't have.
pub fn difference(alloc: Global, old: &Branch, new: &Branch) -> Result<Vec<Gen>, Memory>
    ensures difference { IfOk result (λ all. IsDifference all.items (shape_of old.now) (shape_of new.now)) }
{
    let others = Generations::of(alloc, new)?;
    let mut all = Vec::new(alloc);
    old.put_missing(&others, &mut all)?;
    Ok(all)
}
