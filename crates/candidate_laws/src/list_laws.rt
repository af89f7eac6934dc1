// What follows from the definitions: each law is the contract of a function that does nothing.

ghost use Rattle.candidate_laws.specs.ListLaws.{CompositesAreThose, ListsAreThose, DecidedEntriesHold, SoughtIsWhatComesUp};

/// The composites of a tree of nodes are those of the behaviour that it stands for.
pub fn composites_are_those()
    ensures { CompositesAreThose }
{}

/// The list of a query over a tree of nodes is that of the behaviour that it stands for.
pub fn lists_are_those()
    ensures { ListsAreThose }
{}

/// An entry that is decided from what is known says what is so of the steps of the behaviour that the tree stands for.
pub fn decided_entries_hold()
    ensures { DecidedEntriesHold }
{}

/// Some action is sought below steps exactly where one comes up by them as one that is sought.
pub fn sought_is_what_comes_up()
    ensures { SoughtIsWhatComesUp }
{}
