// What follows from the definitions: each law is the contract of a function that does nothing.

ghost use Rattle.node_verdict.specs.Laws.{AskedTermsAreReached};

/// A term that a tree asks is asked of the behaviour before its first action.
pub fn asked_terms_are_reached()
    ensures { AskedTermsAreReached }
{}
