// Drives over a desk in memory.

ghost use Rattle.std.specs.Prelude.{◌≡◌, ℕ, ◌*◌, true, IfOk, OnErr, OnOk};
ghost use Rattle.worker_drive.specs.Counts.{raised_by};

use spec_core::memory::Memory;
use std::alloc::Global;
use std::cell::Cell;
use std::sync::Wait;
use worker_drive::{Desk, Offered, Probe, drive};

/// What a listed desk offers at one look.
#[derive(Clone, Copy)]
enum Look {
    /// A number to be squared.
    Square(u32),
    /// Nothing now.
    Nothing,
}

/// A number to be squared, as the seat's job of this number.
#[derive(Drop)]
struct Square {
    number: u64,
    value: u32,
}

/// A desk that offers what is listed and then is over. The job of the number `fails_at` meets want of memory.
#[derive(Drop)]
struct ListedDesk {
    looks: Vec<Look>,
    fails_at: u64,
}

/// Who has looked so often, what came of the jobs, and whether one met want of memory.
#[derive(Drop)]
struct Worker {
    looks: usize,
    taken: u64,
    handed: u64,
    is_over: bool,
    is_halted: bool,
    squares: Vec<u64>,
}

impl Desk for ListedDesk {
    ghost use Rattle.std.specs.Prelude.{◌≡◌, ◌*◌, true, false, ⊤};

    type Seat = Worker;

    type Job = Square;

    type Done = u64;

    ghost Who = { ⊤ };

    ghost who = { λ seat. tt };

    ghost ours = { λ desk who. ⊤ };

    ghost given = { λ desk job. ⊤ };

    ghost idle = { λ seat. seat.is_over ≡ false };

    ghost over = { λ seat. seat.is_over ≡ true };

    ghost halted = { λ seat. seat.is_halted ≡ true };

    ghost taken = { λ seat. seat.taken };

    ghost handed = { λ seat. seat.handed };

    ghost fits = { λ desk job done. done ≡ job.value * job.value };

    fn take<R: Wait>(&self, _rt: &R, seat: &mut Worker) -> Result<Offered<Square>, Memory> {
        if seat.is_halted {
            return Err(Memory);
        }
        if seat.looks >= self.looks.len() {
            seat.is_over = true;
            return Ok(Offered::Over);
        }
        seat.is_over = false;
        let look = self.looks[seat.looks];
        seat.looks += 1;
        match look {
            Look::Square(value) => {
                seat.taken = seat.taken.saturating_add(1);
                let number = seat.taken;
                Ok(Offered::Job(Square { number, value }))
            }
            Look::Nothing => Ok(Offered::Idle),
        }
    }

    fn number(&self, job: &Square) -> u64 {
        job.number
    }

    fn perform(&self, job: &Square) -> Result<u64, Memory> {
        if job.number == self.fails_at {
            return Err(Memory);
        }
        Ok(u64::from(job.value) * u64::from(job.value))
    }

    fn put<R: Wait>(
        &self,
        _rt: &R,
        seat: &mut Worker,
        job: Square,
        done: Result<u64, Memory>,
    ) -> Result<(), Memory>
        requires fits { IfOk done (λ square. square ≡ job.value * job.value) }
        ensures running { OnOk result (seat.new.is_halted ≡ true → ⊥) }
        ensures halted { OnErr result (seat.new.is_halted ≡ true) }
        ensures still { seat.old.is_halted ≡ true → seat.new.is_halted ≡ true }
        ensures wanting { OnErr done (seat.new.is_halted ≡ true) }
        ensures taken { seat.new.taken ≡ seat.old.taken }
        ensures handed { seat.new.handed ≡ raised_by 1 seat.old.handed }
    {
        seat.handed = seat.handed.saturating_add(1);
        if seat.is_halted {
            return Err(Memory);
        }
        seat.is_halted = true;
        seat.squares.push(done?)?;
        seat.is_halted = false;
        Ok(())
    }
}

/// Adds up the numbers of the jobs.
#[derive(Drop)]
struct NumberSum {
    sum: Cell<u64>,
}

impl Probe for NumberSum {
    fn before(&self, job: u64) {
        self.sum.set(self.sum.get().saturating_add(job));
    }
}

fn listed_desk(alloc: Global, fails_at: u64) -> Result<ListedDesk, Memory> {
    let mut looks = Vec::new(alloc);
    looks.push(Look::Square(3))?;
    looks.push(Look::Nothing)?;
    looks.push(Look::Square(4))?;
    looks.push(Look::Square(5))?;
    Ok(ListedDesk { looks, fails_at })
}

fn new_worker(alloc: Global) -> Worker {
    Worker {
        looks: 0,
        taken: 0,
        handed: 0,
        is_over: false,
        is_halted: false,
        squares: Vec::new(alloc),
    }
}

#[test]
fn each_job_is_performed_and_put_until_the_desk_is_over(rt: HostRuntime) {
    let alloc: Global = rt.alloc();
    let desk = listed_desk(alloc, 0).expect(&rt, "memory");
    let mut worker = new_worker(alloc);
    let probe = NumberSum { sum: Cell::new(0) };
    let jobs = drive(&rt, &desk, &mut worker, &probe).expect(&rt, "memory");
    assert_eq!(rt; jobs, 3);
    assert_eq!(rt; worker.squares.as_slice(), [9, 16, 25].as_slice());
    assert_eq!(rt; (worker.taken, worker.handed), (3, 3));
    assert_eq!(rt; probe.sum.get(), 6, "the probe is told of jobs 1, 2 and 3");
    let none = drive(&rt, &desk, &mut worker, &probe).expect(&rt, "memory");
    assert_eq!(rt; none, 0, "the desk is over");
    assert_eq!(rt; (worker.taken, worker.handed), (3, 3));
}

#[test]
fn a_job_that_meets_want_of_memory_is_put_and_ends_the_drive(rt: HostRuntime) {
    let alloc: Global = rt.alloc();
    let desk = listed_desk(alloc, 2).expect(&rt, "memory");
    let mut worker = new_worker(alloc);
    let probe = NumberSum { sum: Cell::new(0) };
    assert!(rt; drive(&rt, &desk, &mut worker, &probe).is_err());
    assert_eq!(rt; worker.squares.as_slice(), [9].as_slice());
    assert_eq!(rt; (worker.taken, worker.handed), (2, 2));
    assert!(rt; !worker.is_over);
    assert!(rt;
        drive(&rt, &desk, &mut worker, &probe).is_err(),
        "the desk has halted"
    );
    assert_eq!(rt; (worker.taken, worker.handed), (2, 2));
}
