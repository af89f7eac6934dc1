// What follows from the definitions: each law is the contract of a function that does nothing.

ghost use Rattle.client_laws.specs.Laws.{RunsAreDerivations, RunsAnswerEach, ClientRunsAreDerivations, ClientRunsAnswerEach};
ghost use Rattle.client_laws.specs.Laws.{NextEventsHold, RunsStopForReasons, RunsAreJustified, JustifiedLogsAreDerivations, ClientRunsAreLegal};
ghost use Rattle.client_laws.specs.Laws.{ClientRunsAreComplete, EndsSayWhatIsSo, SessionsAreOne, NoOtherSession, TreesHaveOneEnd};

/// Each run is a derivation by the inference rules.
pub fn runs_are_derivations()
    ensures { RunsAreDerivations }
{}

/// The offers of a run are just those that the client wishes, in order, each with exactly one answer.
pub fn runs_answer_each()
    ensures { RunsAnswerEach }
{}

/// The session of a client is a derivation from the specification's behaviour on.
pub fn client_runs_are_derivations()
    ensures { ClientRunsAreDerivations }
{}

/// In the session of a client the offers are just those that it wishes, in order, each with exactly one answer.
pub fn client_runs_answer_each()
    ensures { ClientRunsAnswerEach }
{}

/// What comes next by the rules says what is so of the steps of the behaviour that is reached.
pub fn next_events_hold()
    ensures { NextEventsHold }
{}

/// A run that has stopped stopped for its reason where this is so.
pub fn runs_stop_for_reasons()
    ensures { RunsStopForReasons }
{}

/// In each run each entry is possible and justified.
pub fn runs_are_justified()
    ensures { RunsAreJustified }
{}

/// Where each entry of a log is possible and justified, the log is a derivation.
pub fn justified_logs_are_derivations()
    ensures { JustifiedLogsAreDerivations }
{}

/// The session of a client is legal: each entry is possible and justified, what stops it is so where it stops, and the end is that of the
/// state that is reached.
pub fn client_runs_are_legal()
    ensures { ClientRunsAreLegal }
{}

/// Where no reason to stop is so on the way, the session isn't stopped.
pub fn client_runs_are_complete()
    ensures { ClientRunsAreComplete }
{}

/// What the end of a session says of the steps of the behaviour that is reached is so: where it is a deadlock, no rule gives a step; where it
/// is waiting, some rule gives one.
pub fn ends_say_what_is_so()
    ensures { EndsSayWhatIsSo }
{}

/// By the trees of the behaviour that is reached a session has one end. So where a tree is beyond and none is windowed, as of
/// `choice x : S [] [x = c] -> g; stop` where the window of S doesn't show c, it is neither a deadlock nor waiting.
pub fn trees_have_one_end()
    ensures { TreesHaveOneEnd }
{}

/// Two sessions of a client with the same wishes are one, where neither was stopped, or only because there were as many actions as are
/// allowed. Without this premise they needn't be: of two terms that are too dear, as in `g !E; stop [] h !F; stop`, either may stop one.
pub fn sessions_are_one()
    ensures { SessionsAreOne }
{}

/// Where on the way of one session no other reason to stop is so, there is no other session.
pub fn no_other_session()
    ensures { NoOtherSession }
{}
