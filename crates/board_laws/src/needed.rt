// What follows from the definitions: each law is the contract of a function that does nothing.

ghost use Rattle.board_laws.specs.NeededLaws.{NothingNeededIsDecided, NeededJobsLive, NeededJobsAreUndone};
ghost use Rattle.board_laws.specs.NeededLaws.{NeededNodesAreGaps, NeededPartsAreOfTrees, NothingNextNothingPending};
ghost use Rattle.board_laws.specs.NeededLaws.{FirstTreesAreThose, FirstTreesAreSo};

/// Where searches in a tree ask no job, the rules decide an entry.
pub fn nothing_needed_is_decided()
    ensures { NothingNeededIsDecided }
{}

/// Each job that searches in a tree ask is one at a node of the tree.
pub fn needed_jobs_live()
    ensures { NeededJobsLive }
{}

/// No job that searches in a tree ask is done: a node to be expanded waits, and nothing is known of a part that is to be judged.
pub fn needed_jobs_are_undone()
    ensures { NeededJobsAreUndone }
{}

/// A node that searches ask to expand is a gap among the trees for which a query of the rules may ask.
pub fn needed_nodes_are_gaps()
    ensures { NeededNodesAreGaps }
{}

/// A part that searches ask to judge is one of a tree for which a query of the rules may ask.
pub fn needed_parts_are_of_trees()
    ensures { NeededPartsAreOfTrees }
{}

/// Where each open client waits, and nothing comes next, no offer is pending.
pub fn nothing_next_nothing_pending()
    ensures { NothingNextNothingPending }
{}

/// Where what is known of a tree is so, the first tree that a search finds is the first of the whole list.
pub fn first_trees_are_those()
    ensures { FirstTreesAreThose }
{}

/// Where what is known of a tree is so, searches for any tree say which trees the behaviour that it stands for has.
pub fn first_trees_are_so()
    ensures { FirstTreesAreSo }
{}
