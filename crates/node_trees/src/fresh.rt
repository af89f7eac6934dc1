// Trees of new nodes.

ghost use Rattle.std.specs.Prelude.{◌≡◌, IfOk};
ghost use Rattle.node_trees.specs.Generations.{IsFresh};
ghost use Rattle.node_trees.specs.Origins.{source_of};
ghost use Rattle.node_trees.specs.Shapes.{shape_of, unary_of, binary_of, leaf, ended, over, between, new_node};

use crate::branch::{Branch, Double, Single};
use crate::node::Node;
use crate::origin::{Gen, Origin};
use spec_core::memory::Memory;
use std::alloc::Global;

/// A tree of new nodes, and the next generation.
#[derive(Drop)]
pub struct Fresh {
    pub branch: Box<Branch>,
    pub next: u128,
}

/// A node that waits.
#[tactic(auto, using(crate::proofs::Growing::fresh_leaf))]
#[inline(never)]
pub fn waiting(alloc: Global, origin: Origin, next: u128) -> Result<Fresh, Memory>
    ensures shape { IfOk result (λ f. shape_of f.branch.value ≡ leaf (new_node next (source_of origin))) }
    ensures fresh { IfOk result (λ f. IsFresh next f.next (shape_of f.branch.value)) }
{
    if next == u128::MAX {
        return Err(Memory);
    }
    let node = Node {
        generation: Gen(next),
        origin,
        work: None,
    };
    let branch = Box::new(alloc, Branch::Leaf(node))?;
    Ok(Fresh {
        branch,
        next: next + 1,
    })
}

/// No node: what is left of an exit.
#[tactic(auto, using(crate::proofs::Growing::fresh_ended))]
#[inline(never)]
pub fn nothing(alloc: Global, next: u128) -> Result<Fresh, Memory>
    ensures shape { IfOk result (λ f. shape_of f.branch.value ≡ ended) }
    ensures fresh { IfOk result (λ f. IsFresh next f.next (shape_of f.branch.value)) }
{
    let branch = Branch::ended(alloc)?;
    Ok(Fresh { branch, next })
}

/// An operator over new nodes, whose generations are from `low` on.
#[tactic(auto, using(crate::proofs::Growing::fresh_over))]
#[inline(never)]
pub fn put_over(alloc: Global, operator: Single, one: Fresh, low: u128) -> Result<Fresh, Memory>
    requires one { IsFresh low one.next (shape_of one.branch.value) }
    ensures shape { IfOk result (λ f. shape_of f.branch.value ≡ over (unary_of operator) (shape_of one.branch.value)) }
    ensures fresh { IfOk result (λ f. IsFresh low f.next (shape_of f.branch.value)) }
{
    let Fresh { branch, next } = one;
    let branch = Branch::over(alloc, operator, branch)?;
    Ok(Fresh { branch, next })
}

/// An operator between new nodes, whose generations are from `low` on, those of the second part after those of the first.
#[tactic(auto, using(crate::proofs::Growing::fresh_between))]
#[inline(never)]
pub fn put_between(
    alloc: Global,
    operator: Double,
    one: Fresh,
    two: Fresh,
    low: u128,
) -> Result<Fresh, Memory>
    requires one { IsFresh low one.next (shape_of one.branch.value) }
    requires two { IsFresh one.next two.next (shape_of two.branch.value) }
    ensures shape { IfOk result (λ f.
        shape_of f.branch.value ≡ between (binary_of operator) (shape_of one.branch.value) (shape_of two.branch.value)) }
    ensures fresh { IfOk result (λ f. IsFresh low f.next (shape_of f.branch.value)) }
{
    let Fresh {
        branch: left,
        next: _,
    } = one;
    let Fresh {
        branch: right,
        next,
    } = two;
    let branch = Branch::between(alloc, operator, left, right)?;
    Ok(Fresh { branch, next })
}
