// Who has no thread is served turn by turn, beside others.

ghost use Rattle.std.specs.Prelude.{◌≡◌, IfOk, false};
ghost use Rattle.session.specs.Sessions.{IsWorkerOf, who_of};
ghost use Rattle.session_threads.specs.Rows.{IsServed, SameRow};
ghost use Rattle.session_threads.specs.Stepping.{IsAllDone, IsAwaiting, IsResting, IsSound, row_of};
ghost use Rattle.session_threads.specs.declared.rows.Row.TheVariants.{Client, Worker};

use crate::rows::Row;
use crate::serving::leave;
use rule_model::wish::ClientWish;
use session::desk::Did;
use session::pass::Pass;
use session::session::Session;
use session::waiting::Waited;
use session::waiting_pass::WaitingPass;
use session::work_pass::WorkPass;
use spec_core::memory::Memory;
use std::sync::Wait;
use worker_drive::Probe;

/// Who is served turn by turn.
#[derive(Drop)]
pub enum Stepped<'w> {
    /// A client that waits for no answer, and what it still has to offer.
    Resting {
        pass: Pass,
        wishes: &'w [ClientWish],
        left: &'w [ClientWish],
    },
    /// A client that waits for an answer, and what it has to offer after that.
    Waiting {
        pass: WaitingPass,
        wishes: &'w [ClientWish],
        left: &'w [ClientWish],
    },
    /// A worker.
    Working {
        pass: WorkPass,
    },
    /// Who has done all that it was to do.
    Over(Row<'w>),
}

impl<'w> Stepped<'w> {
    /// The row of who has done all that it was to do.
    pub fn row(self) -> Row<'w>
        requires over { IsAllDone self }
        ensures row { result ≡ row_of self.entry }
        ensures served { IsServed result }
    {
        match self {
            Stepped::Over(row) => row,
            Stepped::Resting { .. } => unreachable!(),
            Stepped::Waiting { .. } => unreachable!(),
            Stepped::Working { .. } => unreachable!(),
        }
    }
}

/// What a turn of one, or a round of several, came to.
#[derive(Clone, Copy, Debug, PartialEq, Eq)]
pub enum Round {
    /// There was something to do.
    Busy,
    /// There was nothing to do now.
    Idle,
    /// Each has done all that it was to do.
    Over,
}

impl Round {
    /// What both together came to.
    pub fn and(self, other: Round) -> Round
        ensures { result ≡ Round.Over → (self ≡ Round.Over) × (other ≡ Round.Over) }
    {
        match self {
            Round::Busy => Round::Busy,
            Round::Idle => match other {
                Round::Busy => Round::Busy,
                Round::Idle | Round::Over => Round::Idle,
            },
            Round::Over => other,
        }
    }
}

// A client that waits for no answer makes its next offer, or asks for it, or leaves where none is left.
fn step_resting<'w, R: Wait>(
    rt: &R,
    session: &Session,
    pass: Pass,
    wishes: &'w [ClientWish],
    left: &'w [ClientWish],
) -> Result<Stepped<'w>, Memory>
    requires resting { IsResting session.now wishes.now pass left.now }
    ensures sound { IfOk result (IsSound session.now) }
    ensures row { IfOk result (λ state. SameRow (Client pass wishes.entry false) (row_of state)) }
{
    let mut pass = pass;
    match left.split_first() {
        None => {
            leave(rt, session, &mut pass)?;
            Ok(Stepped::Over(Row::Client {
                pass,
                wishes,
                is_done: true,
            }))
        }
        Some((wish, left)) => {
            let pass = session.begin(rt, pass, &wish.offer, wish.ask)?;
            Ok(Stepped::Waiting { pass, wishes, left })
        }
    }
}

// A client that waits looks for its answer.
fn step_waiting<'w, R: Wait>(
    rt: &R,
    session: &Session,
    pass: WaitingPass,
    wishes: &'w [ClientWish],
    left: &'w [ClientWish],
) -> Result<(Stepped<'w>, Round), Memory>
    requires waiting { IsAwaiting session.now wishes.now pass left.now }
    ensures sound { IfOk result (λ r. IsSound session.now r.0) }
    ensures row { IfOk result (λ r. SameRow (Client pass.before wishes.entry false) (row_of r.0)) }
    ensures over { IfOk result (λ r. r.1 ≡ Round.Over → ⊥) }
{
    match session.go_on(rt, pass)? {
        Waited::Answered(pass, _) => Ok((Stepped::Resting { pass, wishes, left }, Round::Busy)),
        Waited::Busy(pass) => Ok((Stepped::Waiting { pass, wishes, left }, Round::Busy)),
        Waited::Idle(pass) => Ok((Stepped::Waiting { pass, wishes, left }, Round::Idle)),
    }
}

// A worker does what is there to be done.
fn step_worker<'w, R: Wait, P: Probe>(
    rt: &R,
    session: &Session,
    pass: WorkPass,
    probe: &P,
) -> Result<(Stepped<'w>, Round), Memory>
    requires ours { IsWorkerOf session.now (who_of pass) }
    ensures sound { IfOk result (λ r. IsSound session.now r.0) }
    ensures row { IfOk result (λ r. SameRow (Worker pass false) (row_of r.0)) }
    ensures over { IfOk result (λ r. r.1 ≡ Round.Over → ⊥) }
{
    let mut pass = pass;
    match session.work(rt, &mut pass, probe)? {
        Did::Job | Did::Settled => Ok((Stepped::Working { pass }, Round::Busy)),
        Did::Idle => Ok((Stepped::Working { pass }, Round::Idle)),
        Did::Over => Ok((
            Stepped::Over(Row::Worker {
                pass,
                is_done: true,
            }),
            Round::Busy,
        )),
    }
}

/// One turn of who is served turn by turn.
pub fn step<'w, R: Wait, P: Probe>(
    rt: &R,
    session: &Session,
    state: Stepped<'w>,
    probe: &P,
) -> Result<(Stepped<'w>, Round), Memory>
    requires sound { IsSound session.now state }
    ensures sound { IfOk result (λ r. IsSound session.now r.0) }
    ensures row { IfOk result (λ r. SameRow (row_of state.entry) (row_of r.0)) }
    ensures over { IfOk result (λ r. r.1 ≡ Round.Over → IsAllDone r.0) }
{
    match state {
        Stepped::Resting { pass, wishes, left } => {
            let state = step_resting(rt, session, pass, wishes, left)?;
            Ok((state, Round::Busy))
        }
        Stepped::Waiting { pass, wishes, left } => { step_waiting(rt, session, pass, wishes, left) }
        Stepped::Working { pass } => step_worker(rt, session, pass, probe),
        Stepped::Over(row) => Ok((Stepped::Over(row), Round::Over)),
    }
}
