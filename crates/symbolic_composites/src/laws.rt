// What follows from the definitions: each law is the contract of a function that does nothing.

ghost use Rattle.symbolic_composites.specs.Examples.{ListsAreAsWorked};
ghost use Rattle.symbolic_composites.specs.Shown.{ShownIsAdmitted};
ghost use Rattle.symbolic_composites.specs.Laws.{SeenTreesAreCandidates, ListsHoldTheirTrees, EmptyListsNoStep, CompositesOfOrigins};

/// Each seen tree is a tree of a composite with values that may be seen.
pub fn seen_trees_are_candidates()
    ensures { SeenTreesAreCandidates }
{}

/// The lists hold the windowed trees and the beyond trees, and no others.
pub fn lists_hold_their_trees()
    ensures { ListsHoldTheirTrees }
{}

/// Where both lists are empty, there is no step.
pub fn empty_lists_no_step()
    ensures { EmptyListsNoStep }
{}

/// The composites of a behaviour with terms put in are those of the code with these terms for its variables.
pub fn composites_of_origins()
    ensures { CompositesOfOrigins }
{}

/// What a behaviour may do by a tree of one of its composites is what the composite and the chosen values say.
pub fn shown_is_admitted()
    ensures { ShownIsAdmitted }
{}

/// Worked lists.
pub fn lists_are_as_worked()
    ensures { ListsAreAsWorked }
{}
