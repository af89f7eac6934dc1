// The whole call over objects in memory.

use lotos_outside::memory_shelf::MemoryShelf;
use lotos_outside::memory_sink::MemorySink;
use lotos_outside::memory_source::MemorySource;
use lotos_outside::sink::Sink;
use lotos_run::lotos_main;
use lotos_run::status::Status;
use std::sync::Wait;
use std::test::Fail;
use std::thread::Threads;
use worker_drive::Probe;

/// Looks at no job.
#[derive(Drop)]
pub struct Unwatched;

impl Probe for Unwatched {
    fn before(&self, _job: u64) {}
}

/// What a call ended with: its status, and what was written.
#[derive(Drop)]
pub struct Ended {
    pub status: Status,
    pub written: Vec<u8>,
}

/// The words as a call has them.
pub fn words_of<R: AllocGlobal>(rt: &R, words: &[&str]) -> Result<Vec<String>, Fail> {
    let mut all = Vec::new(rt.alloc());
    for word in words {
        all.push(String::from_str(rt.alloc(), word)?)?;
    }
    Ok(all)
}

/// A shelf with the files `spec` and `script`, which fails at the calls with these numbers.
pub fn shelf_of<R: AllocGlobal>(
    rt: &R,
    spec: &[u8],
    script: &[u8],
    fails: &[u64],
) -> Result<MemoryShelf, Fail> {
    let mut files = Vec::new(rt.alloc());
    files.push((
        String::from_str(rt.alloc(), "spec")?,
        Vec::from_slice(rt.alloc(), spec)?,
    ))?;
    files.push((
        String::from_str(rt.alloc(), "script")?,
        Vec::from_slice(rt.alloc(), script)?,
    ))?;
    Ok(MemoryShelf::new(files, Vec::from_slice(rt.alloc(), fails)?))
}

/// No input.
pub fn no_input<R: AllocGlobal>(rt: &R) -> MemorySource {
    MemorySource::new(Vec::new(rt.alloc()), Vec::new(rt.alloc()))
}

/// Calls with these words over a shelf that fails at these calls, and writes to this sink.
pub fn call_into<R: AllocGlobal + Threads + Wait + Sync, O: Sink>(
    rt: &R,
    words: &[&str],
    spec: &[u8],
    script: &[u8],
    shelf_fails: &[u64],
    out: &mut O,
) -> Result<Status, Fail> {
    let words = words_of(rt, words)?;
    let mut shelf = shelf_of(rt, spec, script, shelf_fails)?;
    Ok(lotos_main(rt, &words, &mut shelf, &mut no_input(rt), out, &Unwatched))
}

/// Calls with these words over a shelf that fails at these calls.
pub fn call<R: AllocGlobal + Threads + Wait + Sync>(
    rt: &R,
    words: &[&str],
    spec: &[u8],
    script: &[u8],
    shelf_fails: &[u64],
) -> Result<Ended, Fail> {
    let mut out = MemorySink::new(Vec::new(rt.alloc()), Vec::new(rt.alloc()));
    let status = call_into(rt, words, spec, script, shelf_fails, &mut out)?;
    Ok(Ended {
        status,
        written: Vec::from_slice(rt.alloc(), out.bytes())?,
    })
}

/// The words that run the script on the specification.
pub const RUN: [&str; 3] = ["run", "spec", "script"];

/// A specification that can do nothing.
pub const STOP: &[u8] =
    b"specification S : noexit\nlibrary Boolean, NaturalNumber endlib\nbehaviour stop\nendspec\n";

/// Its trace without a client.
pub const STOP_TRACE: &[u8] = b"lotos-trace 1\nend deadlock\n";
