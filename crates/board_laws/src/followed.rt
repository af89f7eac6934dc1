// What follows from the definitions: each law is the contract of a function that does nothing.

ghost use Rattle.board_laws.specs.FollowedLaws.{StepsChooseValues, SearchedTreesFollow, FoundTreesAreSearched};
ghost use Rattle.board_laws.specs.FollowedLaws.{CompletenessStays, ExpansionsStay};

/// A tree by which a behaviour does something chooses values alone: no mark and no blank stands in it.
pub fn steps_choose_values()
    ensures { StepsChooseValues }
{}

/// Where each expanded node has ways for the trees of its plans, a tree among which searches look can be followed: if the behaviour does
/// something by it, each node that takes part is expanded, and its part of the tree fills one of its ways.
pub fn searched_trees_follow()
    ensures { SearchedTreesFollow }
{}

/// What searches find is among the trees where they look, and has no mark where the query asks for trees without marks.
pub fn found_trees_are_searched()
    ensures { FoundTreesAreSearched }
{}

/// That each expanded node has ways for the trees of its plans holds where every node waits, and stays so where a node is expanded by such
/// work, and with each step.
pub fn completeness_stays()
    ensures { CompletenessStays }
{}

/// The same holds of the plans being those of the composites of the nodes' origins.
pub fn expansions_stay()
    ensures { ExpansionsStay }
{}
