// Which thread couldn't be started.

use std::sync::atomic::{AtomicU64, Ordering};

/// The number of the thread that couldn't be started last, from 1 on; 0, if each could.
#[derive(Drop)]
pub struct Refusals {
    last: AtomicU64,
}

impl Refusals {
    /// Each thread could be started so far.
    pub fn new() -> Refusals {
        Refusals {
            last: AtomicU64::new(0),
        }
    }

    /// The thread of this number couldn't be started, so that what it was to do isn't begun where it is called instead.
    pub fn refuse(&self, number: u64) {
        self.last.store(number, Ordering::SeqCst);
    }

    /// Whether the thread of this number couldn't be started.
    pub fn has(&self, number: u64) -> bool {
        self.last.load(Ordering::SeqCst) == number
    }
}
