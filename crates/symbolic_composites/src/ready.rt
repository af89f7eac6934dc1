// What follows from the definitions: each law is the contract of a function that does nothing.

ghost use Rattle.symbolic_composites.specs.ReadyLaws.{ExactAnswersExist, CallsNestWithinTheCode, ListsHoldAllTrees, ListsDecide};

/// A specification that is ready has exact answers.
pub fn exact_answers_exist()
    ensures { ExactAnswersExist }
{}

/// No more calls stand in one another in a tree than the code has constructs.
pub fn calls_nest_within_the_code()
    ensures { CallsNestWithinTheCode }
{}

/// The lists of a ready specification hold all windowed and all beyond trees.
pub fn lists_hold_all_trees()
    ensures { ListsHoldAllTrees }
{}

/// Each behaviour of a ready specification has such lists, and no step where both are empty.
pub fn lists_decide()
    ensures { ListsDecide }
{}
