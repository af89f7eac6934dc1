// What follows from the definitions: each law is the contract of a function that does nothing.

ghost use Rattle.symbolic_laws.specs.Examples.{ValuesAreLoosened};
ghost use Rattle.symbolic_laws.specs.Laws.{EachStepHasItsTree, EachStepIsSeenByItsTree, OneTreeIsLoosened, LoosenedTreesAreMarked};

/// A tree by which a behaviour acts has a loosened tree.
pub fn each_step_has_its_tree()
    ensures { EachStepHasItsTree }
{}

/// It has no other.
pub fn one_tree_is_loosened()
    ensures { OneTreeIsLoosened }
{}

/// It is the tree itself with marks in the places of some of its values, and the tree itself where it has no mark.
pub fn loosened_trees_are_marked()
    ensures { LoosenedTreesAreMarked }
{}

/// By it each step is seen: it is windowed, or beyond, for an action of the same kind.
pub fn each_step_is_seen_by_its_tree()
    ensures { EachStepIsSeenByItsTree }
{}

/// Worked examples of values that lie beyond their window: where they become marks, and where they stay.
pub fn values_are_loosened()
    ensures { ValuesAreLoosened }
{}
