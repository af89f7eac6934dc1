// Laws of the definitions: a call does nothing, and its contract is the law.

ghost use Rattle.decision_trees.specs.Laws.{DecidedIsSo, DecidedOrFound, FirstIsAsked, FoundAreNeeded, NeededIsFound};
ghost use Rattle.decision_trees.specs.Laws.{FoundAfter, SearchesAreSo, DecisionIsNext, GapsAreSo, PartsAreSo, SearchesInParts};

/// What is decided from what is known is so under all answers that extend it.
pub fn decided_is_so<I, A, R>()
    ensures { DecidedIsSo I A R }
{}

/// Either all is decided, or the walk finds a question.
pub fn decided_or_found<I, A, R>()
    ensures { DecidedOrFound I A R }
{}

/// The first question that the walk finds is asked under all answers that extend what is known.
pub fn first_is_asked<I, A, R>()
    ensures { FirstIsAsked I A R }
{}

/// Each question that the walk finds is needed.
pub fn found_are_needed<I, A, R>()
    ensures { FoundAreNeeded I A R }
{}

/// Where a question is needed, the walk finds one.
pub fn needed_is_found<I, A, R>()
    ensures { NeededIsFound I A R }
{}

/// Behind a decision the walk goes on with what this comes to where each answer that isn't known is nothing.
pub fn found_after<I, A, R, S>()
    ensures { FoundAfter I A R S }
{}

/// Searches in lists that wait find what they look for in the whole lists.
pub fn searches_are_so<I, A, B, R, S>()
    ensures { SearchesAreSo I A B R S }
{}

/// The decision of the rules comes to what they say of the whole lists.
pub fn decision_is_next<I, P, A>()
    ensures { DecisionIsNext I P A }
{}

/// What is decided of a search, what it finds to be asked, and what it comes to where each answer that isn't known is nothing, are read off
/// the list with its gaps.
pub fn gaps_are_so<I, A>()
    ensures { GapsAreSo I A }
{}

/// The list with gaps of what is put together from parts is made from those of the parts.
pub fn parts_are_so<I, A, B>()
    ensures { PartsAreSo I A B }
{}

/// What searches in one list behind another come to, and find to be asked, is made from searches in the two.
pub fn searches_in_parts<A>()
    ensures { SearchesInParts A }
{}
