// What follows from the definitions: each law is the contract of a function that does nothing.

ghost use Rattle.candidate_laws.specs.TreeLaws.{AskedCanBeTested, AskedTreesAreListed, NextEntriesHold};

/// Some test says which trees are asked for.
pub fn asked_can_be_tested()
    ensures { AskedCanBeTested }
{}

/// The list of a query holds the trees that it asks for, and no others.
pub fn asked_trees_are_listed()
    ensures { AskedTreesAreListed }
{}

/// The entry that comes next over the lists of trees says what is so of the behaviour's steps.
pub fn next_entries_hold()
    ensures { NextEntriesHold }
{}
