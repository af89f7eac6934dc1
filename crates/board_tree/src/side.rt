// Which part of an operator a rule is about, and what stays.

ghost use Rattle.std.specs.Prelude.{◌≡◌, IfOk};
ghost use Rattle.node_trees.specs.Shapes.{Shape, Binary};
ghost use Rattle.board_tree.specs.Changes.{changed};
ghost use Rattle.board_tree.specs.Sides.{joined_at};

use crate::change::Change;
use spec_core::memory::Memory;
use std::alloc::Global;

/// A side of an operator.
#[derive(Clone, Copy)]
pub enum Side {
    Left,
    Right,
}

/// The part that a rule leaves of an operator, all else being lost.
#[derive(Clone, Copy)]
pub enum Taking {
    /// The left side of a choice, which acts.
    ChoiceLeft,
    /// The right side of a choice, which acts.
    ChoiceRight,
    /// The left side of a disabling, which terminates.
    DisablingEnd,
    /// The right side of a disabling, which acts.
    DisablingTaken,
}

/// A change of the part of an operator on this side; the other part stays.
#[inline(never)]
pub fn changed_at(alloc: Global, side: Side, part: Change) -> Result<Change, Memory>
    ensures made { IfOk result (λ c. (o : Binary) (x y : Shape) →
        changed c (joined_at side o x y) ≡ joined_at side o (changed part x) y) }
{
    match side {
        Side::Left => Change::between(alloc, part, Change::Stays),
        Side::Right => Change::between(alloc, Change::Stays, part),
    }
}
