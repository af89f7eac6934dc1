// What follows from the definitions: each law is the contract of a function that does nothing.

ghost use Rattle.session_laws.specs.AnswerLaws.{ClientsAloneOffer, SessionsOfOneAreClientRuns, WholeSessionsAnswerClients};

/// In a whole session the offers of each client are numbered from 1 on, in order, and each has exactly one answer.
pub fn whole_sessions_answer_clients()
    ensures { WholeSessionsAnswerClients }
{}

/// A whole session of one client that makes these wishes, or of none, is the run of that client.
pub fn sessions_of_one_are_client_runs()
    ensures { SessionsOfOneAreClientRuns }
{}

/// In a whole session nobody but its clients makes an offer.
pub fn clients_alone_offer()
    ensures { ClientsAloneOffer }
{}
