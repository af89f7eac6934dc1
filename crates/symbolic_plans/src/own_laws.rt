// What follows from the definitions: each law is the contract of a function that does nothing.

ghost use Rattle.symbolic_plans.specs.OwnLaws.{OwnPlansAreThose, OwnPlansOfOrigins};

/// The plans that a behaviour's constructs make are those of its composites.
pub fn own_plans_are_those()
    ensures { OwnPlansAreThose }
{}

/// The plans of a behaviour with terms put in are those of the code with these terms for its variables.
pub fn own_plans_of_origins()
    ensures { OwnPlansOfOrigins }
{}
