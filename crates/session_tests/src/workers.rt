// Workers that do jobs beside one another.

use rule_model::log::End;
use run_settings::settings::{Draw, Settings};
use session::desk::Did;
use session::session::Session;
use session_threads::run::run_in_threads;
use std::alloc::Global;
use std::sync::atomic::{AtomicBool, Ordering};
use test_programs::over_small_data;
use worker_drive::Probe;

const TWO_PROCESSES: &str = "P [a] ||| P [b] where process P [g] : noexit := g; P [g] endproc";

const SETTINGS: Settings = Settings {
    budget: 100,
    values: 3,
    steps: 1000,
    seed: 0,
    draw: Draw::Rotation,
};

/// Holds job 1 until it is told of job 2, for at most 100,000,000 looks.
#[derive(Drop)]
struct HoldsFirst {
    second: AtomicBool,
    released: AtomicBool,
}

impl Probe for HoldsFirst {
    fn before(&self, job: u64) {
        if job == 2 {
            self.second.store(true, Ordering::SeqCst);
        }
        if job == 1 {
            for _ in 0..100_000_000 {
                if self.second.load(Ordering::SeqCst) {
                    self.released.store(true, Ordering::SeqCst);
                    return;
                }
            }
        }
    }
}

/// Looks at no job.
#[derive(Drop)]
struct Unwatched;

impl Probe for Unwatched {
    fn before(&self, _job: u64) {}
}

#[test]
fn a_job_begins_while_another_is_held(rt: HostRuntime) {
    let alloc: Global = rt.alloc();
    let checked = over_small_data(alloc, "noexit", TWO_PROCESSES)
        .expect(&rt, "memory")
        .expect(&rt, "accepted");
    let probe = HoldsFirst {
        second: AtomicBool::new(false),
        released: AtomicBool::new(false),
    };
    let (log, end) = run_in_threads(&rt, alloc, checked, SETTINGS, &[], 2, &probe).expect(
        &rt, "memory",
    );
    assert!(rt; probe.released.load(Ordering::SeqCst));
    assert_eq!(rt; log.as_slice().len(), 0);
    assert!(rt; matches!(end, End::Waiting));
}

#[test]
fn the_first_work_is_a_job(rt: HostRuntime) {
    let alloc: Global = rt.alloc();
    let checked = over_small_data(alloc, "noexit", TWO_PROCESSES)
        .expect(&rt, "memory")
        .expect(&rt, "accepted");
    let (session, _passes, mut workers) = Session::start(alloc, checked, SETTINGS, 0, 1).expect(
        &rt, "memory",
    );
    let mut pass = workers.pop().expect(&rt, "a pass");
    let did = session
        .work(&rt, &mut pass, &Unwatched)
        .expect(&rt, "memory");
    assert!(rt; matches!(did, Did::Job));
}
