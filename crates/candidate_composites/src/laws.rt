// What follows from the definitions: each law is the contract of a function that does nothing.

ghost use Rattle.candidate_composites.specs.Laws.{KnownPlansAreThose, SoughtPlansAreKnown};

/// The plans of a tree make its composites, with the same gaps.
pub fn known_plans_are_those()
    ensures { KnownPlansAreThose }
{}

/// What is sought of a tree is among all that is known of it.
pub fn sought_plans_are_known()
    ensures { SoughtPlansAreKnown }
{}
