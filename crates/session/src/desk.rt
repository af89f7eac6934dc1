// The session as the desk of its workers.

ghost use Rattle.std.specs.Prelude.{◌≡◌, ◌⊎◌, IfOk, OnErr, OnOk};
ghost use Rattle.turn_lock.specs.Entries.{Begins};
ghost use Rattle.turn_lock.specs.Seats.{IsAtRest};
ghost use Rattle.worker_drive.specs.Counts.{raised_by};
ghost use Rattle.session.specs.Calls.{HasSeenMore, StaysSeat};
ghost use Rattle.session.specs.Passes.{HasHalted};
ghost use Rattle.session.specs.Sessions.{FitsJob, IsGiven, IsOpen, IsOver, IsWorkerOf, Who, who_of};
ghost use Rattle.session.specs.Working.{ComesOfDoing, ComesOfSeat, OneJobMore, OnWork, SameJobs};

use crate::session::Session;
use crate::work_pass::WorkPass;
use board_work::outcome::Outcome;
use session_board::shared::{SharedBoard, TakenJob, Work};
use spec_core::memory::Memory;
use std::sync::Wait;
use turn_lock::TurnSeat;
use worker_drive::{Desk, Offered, Probe};

/// What a worker did.
#[derive(Clone, Copy, Debug, PartialEq, Eq)]
pub enum Did {
    /// It took a job, did it and handed in what came of it.
    Job,
    /// It appended an entry.
    Settled,
    /// There was nothing to do, and a client is open.
    Idle,
    /// There was nothing to do, and no client is open.
    Over,
}

impl Session {
    // One step of the session, in a turn of a worker.
    fn work_turn<R: Wait>(&self, rt: &R, seat: &mut TurnSeat<SharedBoard>) -> Result<Work, Memory>
        requires rests { IsAtRest self.now.lock.id seat.old }
        ensures stays { StaysSeat seat.old seat.new }
        ensures none { HasSeenMore seat.old seat.new }
        ensures running { OnOk result (HasHalted seat.new.seen → ⊥) }
        ensures marked { OnErr result (HasHalted seat.new.seen) }
        ensures still { HasHalted seat.old.seen → HasHalted seat.new.seen }
        ensures work { IfOk result (ComesOfSeat self.now.lock.fixed.clients seat.old.seen seat.new.seen) }
        ensures given { IfOk result (OnWork (IsGiven self.now)) }
    {
        let mut held = self.turns.take(rt, seat);
        let work = held.value.work(self.alloc);
        self.turns.give(seat, held);
        work
    }

    /// A worker does what is there to be done: a job, without the turn, of which the probe is told before; or the next entry.
    pub fn work<R: Wait, P: Probe>(
        &self,
        rt: &R,
        pass: &mut WorkPass,
        probe: &P,
    ) -> Result<Did, Memory>
        requires ours { IsWorkerOf self.now (who_of pass.old) }
        ensures who { who_of pass.new ≡ who_of pass.old }
        ensures begins { Begins pass.old.seen pass.new.seen }
        ensures own { pass.new.own ≡ pass.old.own }
        ensures jobs { SameJobs pass.old pass.new ⊎ OneJobMore pass.old pass.new }
        ensures did { IfOk result (ComesOfDoing pass.old pass.new) }
        ensures running { OnOk result (HasHalted pass.new.seen → ⊥) }
        ensures marked { OnErr result (HasHalted pass.new.seen) }
    {
        match self.work_turn(rt, &mut pass.seat)? {
            Work::Free(taken) => {
                pass.taken = pass.taken.saturating_add(1);
                probe.before(taken.number);
                let outcome = self.do_job(&taken);
                let handed = self.hand_in(rt, &mut pass.seat, taken, outcome);
                pass.handed = pass.handed.saturating_add(1);
                handed?;
                Ok(Did::Job)
            }
            Work::Settled => Ok(Did::Settled),
            Work::Idle => Ok(Did::Idle),
            Work::Over => Ok(Did::Over),
        }
    }
}

impl Desk for Session {
    type Seat = WorkPass;

    type Job = TakenJob;

    type Done = Outcome;

    ghost Who = { Who };

    ghost who = { who_of };

    ghost ours = { IsWorkerOf };

    ghost given = { IsGiven };

    ghost idle = { IsOpen };

    ghost over = { IsOver };

    ghost halted = { λ pass. HasHalted pass.seen };

    ghost taken = { λ pass. pass.taken };

    ghost handed = { λ pass. pass.handed };

    ghost fits = { FitsJob };

    fn take<R: Wait>(&self, rt: &R, seat: &mut WorkPass) -> Result<Offered<TakenJob>, Memory> {
        for _ in rt.forever() {
            match self.work_turn(rt, &mut seat.seat)? {
                Work::Free(taken) => {
                    seat.taken = seat.taken.saturating_add(1);
                    return Ok(Offered::Job(taken));
                }
                Work::Settled => {}
                Work::Idle => return Ok(Offered::Idle),
                Work::Over => return Ok(Offered::Over),
            }
        }
        unreachable!()
    }

    fn number(&self, job: &TakenJob) -> u64 {
        job.number
    }

    fn perform(&self, job: &TakenJob) -> Result<Outcome, Memory> {
        self.do_job(job)
    }

    fn put<R: Wait>(
        &self,
        rt: &R,
        seat: &mut WorkPass,
        job: TakenJob,
        done: Result<Outcome, Memory>,
    ) -> Result<(), Memory>
        requires ours { IsWorkerOf self.now (who_of seat.old) }
        requires given { IsGiven self.now job }
        requires fits { IfOk done (λ done. FitsJob self.now job done) }
        ensures who { who_of seat.new ≡ who_of seat.old }
        ensures running { OnOk result (HasHalted seat.new.seen → ⊥) }
        ensures halted { OnErr result (HasHalted seat.new.seen) }
        ensures still { HasHalted seat.old.seen → HasHalted seat.new.seen }
        ensures wanting { OnErr done (HasHalted seat.new.seen) }
        ensures taken { seat.new.taken ≡ seat.old.taken }
        ensures handed { seat.new.handed ≡ raised_by 1 seat.old.handed }
    {
        let handed = self.hand_in(rt, &mut seat.seat, job, done);
        seat.handed = seat.handed.saturating_add(1);
        handed
    }
}
