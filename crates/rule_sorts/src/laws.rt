// What follows from the definitions: each law is the contract of a function that does nothing.

ghost use Rattle.rule_sorts.specs.Laws.{ReachedBehavioursFit};

/// Where a log leads from a specification's behaviour to a state, each term of the behaviour that is reached has its sort, and no choice of a
/// gate in it has too many gates.
pub fn reached_behaviours_fit()
    ensures { ReachedBehavioursFit }
{}
