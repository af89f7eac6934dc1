// What follows from the definitions: the law is the contract of a function that does nothing.

ghost use Rattle.rule_walk.specs.Laws.{OneRuleIsUnfit};

/// At most one rule of a tree is the first that doesn't fit.
#[tactic(auto, using(crate::proofs::OnePath::one_rule_is_unfit))]
pub fn one_rule_is_unfit()
    ensures { OneRuleIsUnfit }
{}
