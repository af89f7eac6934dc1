// A worker at its desk.

ghost use Rattle.std.specs.Prelude.{◌≡◌, IfOk, OnErr, OnOk};
ghost use Rattle.worker_drive.specs.Counts.{raised_by};

use crate::desk::{Desk, Offered, Probe};
use spec_core::memory::Memory;
use std::sync::Wait;
use std::thread;

/// Takes, performs and puts jobs until the desk is over, and answers how many there were, or 2^64 - 1 where there were
/// more. Each job is put, also one that met want of memory; the first call that answers want of memory ends the drive.
/// The seat is left as that call left it.
pub fn drive<R: Wait, D: Desk, P: Probe>(
    rt: &R,
    desk: &D,
    seat: &mut D::Seat,
    probe: &P,
) -> Result<u64, Memory>
    requires ours { D.ours desk.now (D.who seat.old) }
    ensures who { D.who seat.new ≡ D.who seat.old }
    ensures over { OnOk result (D.over seat.new) }
    ensures running { OnOk result (D.halted seat.new → ⊥) }
    ensures halted { OnErr result (D.halted seat.new) }
    ensures still { D.halted seat.old → D.halted seat.new }
    ensures taken { IfOk result (λ jobs. D.taken seat.new ≡ raised_by jobs (D.taken seat.old)) }
    ensures handed { IfOk result (λ jobs. D.handed seat.new ≡ raised_by jobs (D.handed seat.old)) }
{
    let mut jobs = 0u64;
    for _ in rt.forever() {
        match desk.take(rt, seat)? {
            Offered::Job(job) => {
                probe.before(desk.number(&job));
                let done = desk.perform(&job);
                desk.put(rt, seat, job, done)?;
                jobs = jobs.saturating_add(1);
            }
            Offered::Idle => thread::yield_now(),
            Offered::Over => return Ok(jobs),
        }
    }
    unreachable!()
}
