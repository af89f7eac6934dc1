// What follows from the definitions: each law is the contract of a function that does nothing.

ghost use Rattle.session_traces.specs.Laws.{ScriptsHaveTraces, SessionsAreReplayed, SessionsHaveTraces, TracesAreOfOneSession};

/// The log of each session of clients whose wishes fit has a trace.
pub fn sessions_have_traces()
    ensures { SessionsHaveTraces }
{}

/// So has the log of each session of a script.
pub fn scripts_have_traces()
    ensures { ScriptsHaveTraces }
{}

/// The text of the log of a script's session is the trace of no other log, and of no other end.
pub fn traces_are_of_one_session()
    ensures { TracesAreOfOneSession }
{}

/// What `replay` tells of this text is that it is a derivation, unless a term that it asks is too dear or too large.
pub fn sessions_are_replayed()
    ensures { SessionsAreReplayed }
{}
