// What follows from the definitions: each law is the contract of a function that does nothing.

ghost use Rattle.session_laws.specs.Complete.{WholeSessionsAreComplete};

/// A whole session of any number of clients isn't stopped, unless a reason to stop is so on its way: a term is over the budget or meets a value
/// that is too large, or a limit is passed.
pub fn whole_sessions_are_complete()
    ensures { WholeSessionsAreComplete }
{}
