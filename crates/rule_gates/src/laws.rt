// What follows from the definitions: each law is the contract of a function that does nothing.

ghost use Rattle.rule_gates.specs.Laws.{ActionsAreAtGatesOfTheHeading};

/// Where a log leads from a specification's behaviour to a state, each action that the behaviour can do then is internal, or the
/// termination, or at a gate of the specification's heading.
pub fn actions_are_at_gates_of_the_heading()
    ensures { ActionsAreAtGatesOfTheHeading }
{}
