// What follows from the definitions: each law is the contract of a function that does nothing.

ghost use Rattle.candidates.specs.Laws.{KnownCandidatesAreThose, DecidedEntriesAreNext, DecidedEntriesAreSo, JobsAreNeeded};

/// The candidates of a tree, as far as it is expanded, are those of its list that waits, with the same gaps.
pub fn known_candidates_are_those()
    ensures { KnownCandidatesAreThose }
{}

/// Where what is known of a tree is so, the entry that the rules decide from it comes next over the whole lists of trees of the behaviour
/// that it stands for.
pub fn decided_entries_are_next()
    ensures { DecidedEntriesAreNext }
{}

/// Where what is known of a tree is so, the entry that the rules decide from it says what is so of the steps of the behaviour that it
/// stands for.
pub fn decided_entries_are_so()
    ensures { DecidedEntriesAreSo }
{}

/// The jobs at nodes that searches still ask by the rules are those of the questions that the walk along their decision finds.
pub fn jobs_are_needed()
    ensures { JobsAreNeeded }
{}
