// What follows from the definitions: the law is the contract of a function that does nothing.

ghost use Rattle.symbolic_plans.specs.Laws.{PlansMakeComposites};

/// The operators over plans make the composites that those over composites make.
pub fn plans_make_composites()
    ensures { PlansMakeComposites }
{}
