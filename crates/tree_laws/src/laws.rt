// What follows from the definitions: each law is the contract of a function that does nothing.

ghost use Rattle.tree_laws.specs.Laws.{CandidatesDiffer, SizedWindowsDiffer};

/// The windows of the declared sorts hold no value twice.
pub fn sized_windows_differ()
    ensures { SizedWindowsDiffer }
{}

/// The list of all trees of a behaviour, for an offer or for none, holds no tree twice.
pub fn candidates_differ()
    ensures { CandidatesDiffer }
{}
