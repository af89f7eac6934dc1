// Steps from parts of a tree up to the whole.

use node_trees::branch::Single;
use spec_core::code::GateSet;
use symbolic_plans::composite::ActionKind;

/// A step from a part up to the operator over it, by which an action of the part is one of the whole: from the part of an operator over one
/// part; from a side of a parallel composition alone; from its left side together with the right one; and from its right side together with
/// an action of this kind of the left one.
#[derive(Clone, Copy)]
pub enum Step<'a> {
    Under(&'a Single),
    Alone(&'a GateSet),
    Together(&'a GateSet),
    Beside(ActionKind),
}
