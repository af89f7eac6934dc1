// What follows from the definitions: the law is the contract of a function that does nothing.

ghost use Rattle.decision_order.specs.Laws.{DecidedByRules, NeededByRules, NumbersStandForThem};

/// What the rules decide from the results of searches is what is decided of their decision.
pub fn decided_by_rules<I, P, A>()
    ensures { DecidedByRules I P A }
{}

/// What searches still ask by the rules is what the walk along their decision finds.
pub fn needed_by_rules<I, P, A>()
    ensures { NeededByRules I P A }
{}

/// What is decided and asked of numbers of offers is decided and asked of the offers for which they stand.
pub fn numbers_stand_for_them<P, A, Q>()
    ensures { NumbersStandForThem P A Q }
{}
