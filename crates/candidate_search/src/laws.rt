// What follows from the definitions: each law is the contract of a function that does nothing.

ghost use Rattle.candidate_search.specs.Laws.{SearchesFindAll};

/// What a search finds from the first number on are the trees of the composite that the query may ask for.
pub fn searches_find_all()
    ensures { SearchesFindAll }
{}
