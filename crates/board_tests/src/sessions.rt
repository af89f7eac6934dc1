// Sessions, step by step, worked out by hand from the rules of sessions.

use crate::steps::{Step, holds};
use crate::telling::{A, B, board_of, ended};
use board_core::board::Board;
use board_record::{LeaveFault, PendFault};
use spec_core::memory::Memory;
use std::alloc::Global;
use std::test::Fail;

// A session of a behaviour, with so many clients; and how many entries its log has then, with the word of the end, where that is asked.
#[derive(Clone, Copy)]
struct Session {
    behaviour: &'static str,
    clients: u32,
    steps: &'static [Step],
    end: Option<(usize, &'static str)>,
}

// Nothing is settled, and no job is free, while the session waits for its client, or while the job that it needs is out. A job that is given
// back is free again.
const A_JOB_IS_HANDED_OUT_ONCE: Session = Session {
    behaviour: "a; b; stop",
    clients: 1,
    steps: &[
        Step::Settles(None),
        Step::NoJobIsFree,
        Step::Offers(1, A, Ok(1)),
        Step::Settles(None),
        Step::TakesJob(0),
        Step::NoJobIsFree,
        Step::GivesBack,
        Step::TakesJob(0),
        Step::NoJobIsFree,
        Step::GivesAllBack,
        Step::TakesJob(0),
        Step::Settles(None),
        Step::Counts(1, 1, 0, 1),
    ],
    end: None,
};

// Of two clients whose offers can be taken the first is taken, and the other's waits for what comes next.
const CLIENTS_OFFER_AT_ONCE: Session = Session {
    behaviour: "a; a; stop",
    clients: 2,
    steps: &[
        Step::Offers(2, A, Ok(1)),
        Step::Offers(1, A, Ok(1)),
        Step::WorksAndSettles(Some(2)),
        Step::Counts(3, 1, 1, 2),
        Step::WorksAndSettles(Some(3)),
        Step::Counts(4, 0, 2, 2),
    ],
    end: None,
};

// An offer is refused of a client that isn't open or has one pending, and at a gate that isn't there; nothing is appended.
const OFFERS_ARE_REFUSED: Session = Session {
    behaviour: "a; b; stop",
    clients: 1,
    steps: &[
        Step::Offers(0, A, Err(PendFault::NotOpen)),
        Step::Asks(2, 3, Err(PendFault::NotOpen)),
        Step::Offers(1, 3, Err(PendFault::NoSuchGate)),
        Step::Counts(0, 0, 0, 1),
        Step::Offers(1, A, Ok(1)),
        Step::Asks(1, A, Err(PendFault::AlreadyPending)),
        Step::Offers(1, 3, Err(PendFault::AlreadyPending)),
        Step::Counts(1, 1, 0, 1),
    ],
    end: None,
};

// A client doesn't leave before its offer is answered, and leaves once.
const LEAVES_ARE_REFUSED: Session = Session {
    behaviour: "a; b; stop",
    clients: 2,
    steps: &[
        Step::Offers(1, A, Ok(1)),
        Step::Leaves(1, Err(LeaveFault::Pending)),
        Step::Leaves(3, Err(LeaveFault::NotOpen)),
        Step::Counts(1, 1, 0, 2),
        Step::Leaves(2, Ok(())),
        Step::Leaves(2, Err(LeaveFault::NotOpen)),
        Step::Offers(2, A, Err(PendFault::NotOpen)),
        Step::Counts(2, 1, 0, 1),
    ],
    end: None,
};

// Whatever is handed in for a node that is gone is stale, and changes nothing: neither a reason to stop, nor an expansion, nor what a node
// shows. The session goes on.
const LATE_WORK_IS_STALE: Session = Session {
    behaviour: "a; b; stop",
    clients: 1,
    steps: &[
        Step::Offers(1, A, Ok(1)),
        Step::TakesJob(0),
        Step::FirstNodeLives(true),
        Step::GivesAllBack,
        Step::WorksAndSettles(Some(1)),
        Step::FirstNodeLives(false),
        Step::AllIsStale,
        Step::Counts(2, 0, 1, 1),
        Step::Offers(1, B, Ok(2)),
        Step::WorksAndSettles(Some(3)),
        Step::Answered(1, 2, 1, "taken"),
    ],
    end: None,
};

// The nodes of both alternatives are out, and the action of one is done. What is handed in for the other then is stale, as often as it is, and
// changes nothing.
const AN_ALTERNATIVE_THAT_IS_GONE_IS_STALE: Session = Session {
    behaviour: "a; stop [] b; stop",
    clients: 1,
    steps: &[
        Step::Offers(1, A, Ok(1)),
        Step::TakesJob(0),
        Step::TakesAnother(1),
        Step::DoesJob,
        Step::Commits(true),
        Step::Counts(2, 0, 1, 1),
        Step::AllIsStale,
        Step::AllIsStale,
        Step::Counts(2, 0, 1, 1),
        Step::Answered(1, 1, 0, "taken"),
    ],
    end: None,
};

// What is made ready alone changes nothing: the offer waits as before, and is taken afterwards as if nothing had been made ready.
const WHAT_STANDS_READY_CHANGES_NOTHING: Session = Session {
    behaviour: "a; b; stop",
    clients: 1,
    steps: &[
        Step::Offers(1, A, Ok(1)),
        Step::MakesReady(false),
        Step::DoesJob,
        Step::DoesJob,
        Step::MakesReady(true),
        Step::MakesReady(true),
        Step::Counts(1, 1, 0, 1),
        Step::Answered(1, 1, 0, "nothing"),
        Step::NoJobIsFree,
        Step::Settles(Some(1)),
        Step::Answered(1, 1, 0, "taken"),
    ],
    end: None,
};

// An action that was made ready is done: it is the log's last entry, the offer is taken, and the behaviour goes on from there, where
// another offer is taken.
const WHAT_STANDS_READY_IS_DONE: Session = Session {
    behaviour: "a; b; stop",
    clients: 1,
    steps: &[
        Step::Offers(1, A, Ok(1)),
        Step::DoesJob,
        Step::DoesJob,
        Step::Commits(true),
        Step::Counts(2, 0, 1, 1),
        Step::Answered(1, 1, 0, "taken"),
        Step::Commits(false),
        Step::Offers(1, B, Ok(2)),
        Step::WorksAndSettles(Some(3)),
        Step::Answered(1, 2, 1, "taken"),
        Step::Leaves(1, Ok(())),
        Step::WorksAndSettles(None),
    ],
    end: Some((5, "deadlock")),
};

const SESSIONS: [Session; 8] = [
    A_JOB_IS_HANDED_OUT_ONCE,
    CLIENTS_OFFER_AT_ONCE,
    OFFERS_ARE_REFUSED,
    LEAVES_ARE_REFUSED,
    LATE_WORK_IS_STALE,
    AN_ALTERNATIVE_THAT_IS_GONE_IS_STALE,
    WHAT_STANDS_READY_CHANGES_NOTHING,
    WHAT_STANDS_READY_IS_DONE,
];

// The number of the first step that doesn't come out as is due.
fn failing_step(alloc: Global, board: &mut Board, steps: &[Step]) -> Result<Option<usize>, Memory> {
    let mut kept = None;
    for (number, step) in steps.iter().enumerate() {
        if !holds(alloc, board, &mut kept, *step)? {
            return Ok(Some(number));
        }
    }
    Ok(None)
}

// The same of a session on its board, whose end comes behind its steps.
fn failing(alloc: Global, mut board: Board, session: &Session) -> Result<Option<usize>, Memory> {
    if let Some(number) = failing_step(alloc, &mut board, session.steps)? {
        return Ok(Some(number));
    }
    match session.end {
        Some(due) if ended(alloc, board)? != due => Ok(Some(session.steps.len())),
        _ => Ok(None),
    }
}

#[test]
fn sessions_go_step_by_step(rt: HostRuntime) -> Result<(), Fail> {
    for (number, session) in SESSIONS.iter().enumerate() {
        let clients = session.clients.min(64);
        let board = board_of(rt.alloc(), "noexit", session.behaviour, 10, clients)?;
        let board = board.expect(&rt, "accepted");
        assert_eq!(rt;
            failing(rt.alloc(), board, session)?,
            None,
            "session {number}"
        );
    }
    Ok(())
}
