// What follows from the definitions: each law is the contract of a function that does nothing.

ghost use Rattle.session_laws.specs.Laws.{ClientRunsAreSessions, DrivenLogsAnswerClients, DrivenLogsAreDerivations, DrivenLogsAreLegal, RunsAreDriven};

/// A driven log is a derivation from the specification's behaviour on.
pub fn driven_logs_are_derivations()
    ensures { DrivenLogsAreDerivations }
{}

/// A driven log is legal: each entry is possible and justified, and what stops the session is so where it stops.
pub fn driven_logs_are_legal()
    ensures { DrivenLogsAreLegal }
{}

/// The log of each run of one client is driven.
pub fn runs_are_driven()
    ensures { RunsAreDriven }
{}

/// The session of one client is a whole session of one.
pub fn client_runs_are_sessions()
    ensures { ClientRunsAreSessions }
{}

/// In a driven log the offers of each client are answered in order, each at most once.
pub fn driven_logs_answer_clients()
    ensures { DrivenLogsAnswerClients }
{}
