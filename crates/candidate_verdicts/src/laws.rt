// What follows from the definitions: each law is the contract of a function that does nothing.

ghost use Rattle.candidate_verdicts.specs.Laws.{KnownShowsAreSo, MissingPartsAreMissing, ShowsDecideQueries, KnownVerdictsAreSo};
ghost use Rattle.candidate_verdicts.specs.Laws.{PiecesOutliveSteps, SameRulesAreOne, PiecesStaySo};

/// What is known of a tree of nodes is what the behaviour shows that it stands for.
pub fn known_shows_are_so()
    ensures { KnownShowsAreSo }
{}

/// The parts of a tree of rules that are missing are at nodes of which nothing is known, and there are some where it isn't known what is
/// shown.
pub fn missing_parts_are_missing()
    ensures { MissingPartsAreMissing }
{}

/// What a behaviour shows decides which queries ask for the tree.
pub fn shows_decide_queries()
    ensures { ShowsDecideQueries }
{}

/// A verdict that is known says whether the candidate's query asks for its tree.
pub fn known_verdicts_are_so()
    ensures { KnownVerdictsAreSo }
{}

/// What is known of the nodes of a tree is so after each step.
pub fn pieces_outlive_steps()
    ensures { PiecesOutliveSteps }
{}

/// The test of trees of rules says whether they are one.
pub fn same_rules_are_one()
    ensures { SameRulesAreOne }
{}

/// What is known of the nodes of a tree stays so with one more piece, with fewer pieces, and where a node is expanded.
pub fn pieces_stay_so()
    ensures { PiecesStaySo }
{}
