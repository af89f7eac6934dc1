// What a step changes of a tree.

ghost use Rattle.std.specs.Prelude.{◌≡◌, ◌↔◌, IfOk, IsTrue, OnOk};
ghost use Rattle.node_trees.specs.Constructs.{IsTidy};
ghost use Rattle.node_trees.specs.Shapes.{Shape, Unary, Binary, shape_of, unary_of, binary_of, over, between};
ghost use Rattle.board_tree.specs.Changes.{changed, Adds, EndsIn, BeginsIn, IsOnlyIn};

use node_trees::branch::{Branch, Double, Single};
use node_trees::find::difference;
use node_trees::origin::Gen;
use spec_core::memory::Memory;
use std::alloc::Global;
use std::mem::swap;

/// What becomes of a tree in a step.
pub enum Change {
    /// It stays.
    Stays,
    /// Another tree stands in its place.
    Becomes(Box<Branch>),
    /// Its part changes, under the operator, which stays.
    Over(Box<Change>),
    /// Its parts change, under the operator, which stays.
    Between(Box<Change>, Box<Change>),
}

// Written out, so that a function which lets a change go has one call there.
impl Drop for Change {
    fn drop(self) {
        match self {
            Change::Stays => {}
            Change::Becomes(_) => {}
            Change::Over(_) => {}
            Change::Between(_, _) => {}
        }
    }
}

impl Change {
    /// A change of the part of an operator.
    #[inline(never)]
    pub fn over(alloc: Global, part: Change) -> Result<Change, Memory>
        ensures made { IfOk result (λ c. (o : Unary) (x : Shape) → changed c (over o x) ≡ over o (changed part x)) }
    {
        let part = Box::new(alloc, part)?;
        Ok(Change::Over(part))
    }

    /// A change of both parts of an operator.
    #[inline(never)]
    pub fn between(alloc: Global, left: Change, right: Change) -> Result<Change, Memory>
        ensures made { IfOk result (λ c. (o : Binary) (x y : Shape) →
            changed c (between o x y) ≡ between o (changed left x) (changed right y)) }
    {
        let left = Box::new(alloc, left)?;
        let right = Box::new(alloc, right)?;
        Ok(Change::Between(left, right))
    }

    /// Whether the changed tree is tidy under a relabelling: no relabelling, and no node. It takes no memory.
    pub fn is_tidy(&self, branch: &Branch) -> bool
        ensures decides { IsTrue result ↔ IsTidy (changed self.now (shape_of branch.now)) }
    {
        match self {
            Change::Stays => branch.is_tidy(),
            Change::Becomes(new) => new.is_tidy(),
            Change::Over(_) => branch.is_tidy(),
            Change::Between(_, _) => branch.is_tidy(),
        }
    }

    /// The changed tree, as a tree of its own. It recurs as deep as the change.
    #[cycle(made)]
    pub fn made(&self, alloc: Global, branch: &Branch) -> Result<Box<Branch>, Memory>
        ensures made { IfOk result (λ t. shape_of t.value ≡ changed self.now (shape_of branch.now)) }
    {
        match self {
            Change::Stays => branch.copy(alloc),
            Change::Becomes(new) => new.copy(alloc),
            Change::Over(change) => match branch {
                Branch::Over(operator, part) => made_over(alloc, change, operator, part),
                Branch::Leaf(_) | Branch::Ended | Branch::Between(_, _, _) => branch.copy(alloc),
            },
            Change::Between(first, second) => match branch {
                Branch::Between(operator, left, right) => made_between(
                    alloc, first, second, operator, left, right,
                ),
                Branch::Leaf(_) | Branch::Ended | Branch::Over(_, _) => branch.copy(alloc),
            },
        }
    }

    /// Changes the tree. What stood there before is kept in the change, so that this takes no memory. It recurs as deep as the change.
    pub fn put_in(&mut self, branch: &mut Branch)
        ensures changed { shape_of branch.new ≡ changed self.old (shape_of branch.old) }
    {
        match self {
            Change::Stays => {}
            Change::Becomes(new) => exchange(new, branch),
            Change::Over(change) => match branch {
                Branch::Over(_, part) => change.put_in(part),
                Branch::Leaf(_) | Branch::Ended | Branch::Between(_, _, _) => {}
            },
            Change::Between(first, second) => match branch {
                Branch::Between(_, left, right) => {
                    first.put_in(left);
                    second.put_in(right);
                }
                Branch::Leaf(_) | Branch::Ended | Branch::Over(_, _) => {}
            },
        }
    }

    /// Appends the generations that end and that begin where the tree changes. It recurs as deep as the change.
    pub fn put_differences(
        &self,
        alloc: Global,
        branch: &Branch,
        gone: &mut Vec<Gen>,
        came: &mut Vec<Gen>,
    ) -> Result<(), Memory>
        ensures gone { OnOk result (Adds (EndsIn self.now (shape_of branch.now)) gone.old.items gone.new.items) }
        ensures came { OnOk result (Adds (BeginsIn self.now (shape_of branch.now)) came.old.items came.new.items) }
    {
        match self {
            Change::Stays => Ok(()),
            Change::Becomes(new) => {
                put_difference(alloc, branch, new, gone)?;
                put_difference(alloc, new, branch, came)
            }
            Change::Over(change) => match branch {
                Branch::Over(_, part) => change.put_differences(alloc, part, gone, came),
                Branch::Leaf(_) | Branch::Ended | Branch::Between(_, _, _) => Ok(()),
            },
            Change::Between(first, second) => match branch {
                Branch::Between(_, left, right) => {
                    first.put_differences(alloc, left, gone, came)?;
                    second.put_differences(alloc, right, gone, came)
                }
                Branch::Leaf(_) | Branch::Ended | Branch::Over(_, _) => Ok(()),
            },
        }
    }
}

// Each of the two trees in the place of the other.
#[inline(never)]
fn exchange(one: &mut Branch, other: &mut Branch)
    ensures one { shape_of one.new ≡ shape_of other.old }
    ensures other { shape_of other.new ≡ shape_of one.old }
{
    swap(one, other);
}

// The operator over its changed part. It is a function of its own so that the stack holds deep trees, like the one that recurs beside it.
#[cycle(made)]
#[inline(never)]
fn made_over(
    alloc: Global,
    change: &Change,
    operator: &Single,
    part: &Branch,
) -> Result<Box<Branch>, Memory>
    ensures { IfOk result (λ t. shape_of t.value ≡ over (unary_of operator.now) (changed change.now (shape_of part.now))) }
{
    let part = change.made(alloc, part)?;
    Branch::over(alloc, operator.copy(alloc)?, part)
}

// The operator between its changed parts.
#[cycle(made)]
#[inline(never)]
fn made_between(
    alloc: Global,
    first: &Change,
    second: &Change,
    operator: &Double,
    left: &Branch,
    right: &Branch,
) -> Result<Box<Branch>, Memory>
    ensures { IfOk result (λ t. shape_of t.value ≡
        between (binary_of operator.now) (changed first.now (shape_of left.now)) (changed second.now (shape_of right.now))) }
{
    let left = first.made(alloc, left)?;
    let right = second.made(alloc, right)?;
    Branch::between(alloc, operator.copy(alloc)?, left, right)
}

// Appends the generations of the first tree that the second doesn't have.
#[inline(never)]
fn put_difference(
    alloc: Global,
    old: &Branch,
    new: &Branch,
    all: &mut Vec<Gen>,
) -> Result<(), Memory>
    ensures { OnOk result (Adds (IsOnlyIn (shape_of old.now) (shape_of new.now)) all.old.items all.new.items) }
{
    let those = difference(alloc, old, new)?;
    all.extend_from_slice(&those)?;
    Ok(())
}
