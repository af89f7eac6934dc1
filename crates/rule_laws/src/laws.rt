// What follows from the inference rules: each law is the contract of a function that does nothing.

ghost use Rattle.rule_laws.specs.Laws.{StopDoesNothing, ChoiceDoesEither, ParallelIsSymmetric, TerminationIsJoint, HidingHides};
ghost use Rattle.rule_laws.specs.Laws.{RelabellingIsNoSubstitution, TreesDetermineSteps, CodeIsOneBehaviour};

/// No rule gives `stop` a step.
#[tactic(auto, using(crate::proofs::Rows::stop_does_nothing))]
pub fn stop_does_nothing()
    ensures { StopDoesNothing }
{}

/// A choice does what one of its sides does, and nothing else.
#[tactic(auto, using(crate::proofs::Rows::choice_does_either))]
pub fn choice_does_either()
    ensures { ChoiceDoesEither }
{}

/// A parallel composition with its sides exchanged does the same, by the tree with its sides exchanged.
#[tactic(auto, using(crate::proofs::Rows::parallel_is_symmetric))]
pub fn parallel_is_symmetric()
    ensures { ParallelIsSymmetric }
{}

/// A parallel composition terminates only where both sides do, with the same values.
#[tactic(auto, using(crate::proofs::Rows::termination_is_joint))]
pub fn termination_is_joint()
    ensures { TerminationIsJoint }
{}

/// What a hiding does isn't at a hidden gate.
#[tactic(auto, using(crate::proofs::Rows::hiding_hides))]
pub fn hiding_hides()
    ensures { HidingHides }
{}

/// Relabelling is no substitution.
pub fn relabelling_is_no_substitution()
    ensures { RelabellingIsNoSubstitution }
{}

/// By one tree a behaviour does one action and becomes one behaviour.
#[tactic(auto, using(crate::proofs::Determined::trees_determine_steps))]
pub fn trees_determine_steps()
    ensures { TreesDetermineSteps }
{}

/// One behaviour stands at a number of the code.
#[tactic(auto, using(crate::proofs::Determined::code_is_one_behaviour))]
pub fn code_is_one_behaviour()
    ensures { CodeIsOneBehaviour }
{}
