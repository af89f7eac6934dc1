// What follows from the rules of terms in the places of variables: each law is the contract of a function that does nothing.

ghost use Rattle.rule_laws.specs.Substitution.{TwoSubstitutionsAreOne, EmptySubstitutionsChangeNothing, SubstitutionKeepsSteps};
ghost use Rattle.rule_laws.specs.Substitution.{ClosedBehavioursAct, HandingOnIsAfter};

/// Two substitutions are one.
#[tactic(auto, using(crate::proofs::Putting::two_substitutions_are_one))]
pub fn two_substitutions_are_one()
    ensures { TwoSubstitutionsAreOne }
{}

/// Where each variable stands for itself nothing is changed.
#[tactic(auto, using(crate::proofs::Nothing::empty_substitutions_change_nothing))]
pub fn empty_substitutions_change_nothing()
    ensures { EmptySubstitutionsChangeNothing }
{}

/// What a behaviour does with terms for its variables, it does where some of them are put in, and nothing else.
#[tactic(auto, using(crate::proofs::Returning::substitution_keeps_steps))]
pub fn substitution_keeps_steps()
    ensures { SubstitutionKeepsSteps }
{}

/// What a behaviour does with values for its variables, the behaviour with these values in their places does, and nothing else.
#[tactic(auto, using(crate::proofs::Closed::closed_behaviours_act))]
pub fn closed_behaviours_act()
    ensures { ClosedBehavioursAct }
{}

/// Values that are handed on to variables come to the same before and after a substitution.
pub fn handing_on_is_after()
    ensures { HandingOnIsAfter }
{}
