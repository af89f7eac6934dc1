// What follows from the definitions: each law is the contract of a function that does nothing.

ghost use Rattle.log_check.specs.Laws.{LogsHaveOneAnswer};

/// A log is a derivation with one number of actions, or has one first entry that isn't possible, and not both; and no tree behind that
/// entry is asked for a term.
#[tactic(auto, using(crate::proofs::OneAnswer::logs_have_one_answer))]
pub fn logs_have_one_answer()
    ensures { LogsHaveOneAnswer }
{}
