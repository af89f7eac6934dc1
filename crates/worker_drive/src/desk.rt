// Where jobs are taken and put.

ghost use Rattle.std.specs.Prelude.{◌≡◌, ℕ, IfOk, OnErr, OnOk};
ghost use Rattle.worker_drive.specs.Counts.{raised_by};
ghost use Rattle.worker_drive.specs.Offers.{IfJob, OnIdle, OnOver, jobs_in};

use spec_core::memory::Memory;
use std::sync::Wait;

/// What a desk offers a worker.
pub enum Offered<J> {
    /// A job to be performed.
    Job(J),
    /// No job now. There may be one later.
    Idle,
    /// No job any more.
    Over,
}

/// Is told of each job before it is performed.
pub trait Probe {
    /// A job's number, counted from 1 in the order in which jobs are taken. It takes no memory.
    fn before(&self, job: u64);
}

/// Where workers take jobs and put what came of them. A job is performed between the two, beside what other workers do.
pub trait Desk {
    /// A worker's place at the desk.
    type Seat;

    /// What is to be done.
    type Job;

    /// What came of a job.
    type Done;

    /// What a seat keeps for good.
    ghost Who: { Type 0 };

    /// Which seat it is. No call changes it.
    ghost who: { Self.Seat → Who };

    /// The seat belongs to this desk.
    ghost ours: { Self → Who → Type 0 };

    /// What is known of each job that this desk gives.
    ghost given: { Self → Self.Job → Type 0 };

    /// The seat has been told that the desk is idle, so not over.
    ghost idle: { Self.Seat → Type 0 };

    /// The seat has been told that the desk is over.
    ghost over: { Self.Seat → Type 0 };

    /// The seat has seen that want of memory was met at the desk. From then on each call at it answers that.
    ghost halted: { Self.Seat → Type 0 };

    /// How many jobs the seat took, at most 2^64 - 1.
    ghost taken: { Self.Seat → ℕ };

    /// How many jobs the seat put, at most 2^64 - 1.
    ghost handed: { Self.Seat → ℕ };

    /// This came of that job at this desk.
    ghost fits: { Self → Self.Job → Self.Done → Type 0 };

    /// Offers a job. It may wait for the desk.
    fn take<R: Wait>(&self, rt: &R, seat: &mut Self::Seat) -> Result<Offered<Self::Job>, Memory>
        requires ours { ours self.now (who seat.old) }
        ensures who { who seat.new ≡ who seat.old }
        ensures given { IfJob result (λ job. given self.now job) }
        ensures idle { OnIdle result (idle seat.new) }
        ensures over { OnOver result (over seat.new) }
        ensures running { OnOk result (halted seat.new → ⊥) }
        ensures halted { OnErr result (halted seat.new) }
        ensures still { halted seat.old → halted seat.new }
        ensures taken { taken seat.new ≡ raised_by (jobs_in result) (taken seat.old) }
        ensures handed { handed seat.new ≡ handed seat.old };

    /// The job's number, counted from 1 in the order in which jobs are taken. No clause speaks of it. It takes no memory.
    fn number(&self, job: &Self::Job) -> u64;

    /// Performs a job.
    fn perform(&self, job: &Self::Job) -> Result<Self::Done, Memory>
        requires given { given self.now job.now }
        ensures fits { IfOk result (λ done. fits self.now job.now done) };

    /// Puts what came of a job, or that it met want of memory. It may wait for the desk.
    fn put<R: Wait>(
        &self,
        rt: &R,
        seat: &mut Self::Seat,
        job: Self::Job,
        done: Result<Self::Done, Memory>,
    ) -> Result<(), Memory>
        requires ours { ours self.now (who seat.old) }
        requires given { given self.now job }
        requires fits { IfOk done (λ done. fits self.now job done) }
        ensures who { who seat.new ≡ who seat.old }
        ensures running { OnOk result (halted seat.new → ⊥) }
        ensures halted { OnErr result (halted seat.new) }
        ensures still { halted seat.old → halted seat.new }
        ensures wanting { OnErr done (halted seat.new) }
        ensures taken { taken seat.new ≡ taken seat.old }
        ensures handed { handed seat.new ≡ raised_by 1 (handed seat.old) };
}
