// What follows from the definitions: each law is the contract of a function that does nothing.

ghost use Rattle.rule_origins.specs.Laws.{CodeIsOpened, BehavioursStand, ValuesAreRead, ValuesClose, HandedOnValuesJoin};

/// The behaviour at a number is the construct there over the behaviours at its parts.
#[tactic(auto, using(crate::proofs::Opening::code_is_opened))]
pub fn code_is_opened()
    ensures { CodeIsOpened }
{}

/// The behaviour at the number of a construct of behaviour stands there.
#[tactic(auto, using(crate::proofs::Standing::behaviours_stand))]
pub fn behaviours_stand()
    ensures { BehavioursStand }
{}

/// A list of operations that spells a value is read as this value.
#[tactic(auto, using(crate::proofs::Reading::values_are_read))]
pub fn values_are_read()
    ensures { ValuesAreRead }
{}

/// Values put nothing but ground terms in the places of variables.
pub fn values_close()
    ensures { ValuesClose }
{}

/// Values that are handed on join those that are put in already.
pub fn handed_on_values_join()
    ensures { HandedOnValuesJoin }
{}
