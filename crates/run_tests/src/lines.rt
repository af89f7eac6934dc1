// Lines of `sim` that come in pieces, and an input that fails.

use crate::call::{Ended, STOP, Unwatched, shelf_of, words_of};
use lotos_outside::memory_sink::MemorySink;
use lotos_outside::memory_source::MemorySource;
use lotos_run::lotos_main;
use lotos_run::status::Status;
use std::sync::Wait;
use std::test::Fail;
use std::thread::Threads;

// The line `menu`, and behind it the beginning of another one, in two pieces; the reads with these numbers fail.
fn simulated<R: AllocGlobal + Threads + Wait + Sync>(rt: &R, fails: &[u64]) -> Result<Ended, Fail> {
    let words = words_of(rt, &["sim", "spec"])?;
    let mut shelf = shelf_of(rt, STOP, b"", &[])?;
    let mut pieces = Vec::new(rt.alloc());
    pieces.push(Vec::from_slice(rt.alloc(), b"me")?)?;
    pieces.push(Vec::from_slice(rt.alloc(), b"nu\nqu")?)?;
    let mut input = MemorySource::new(pieces, Vec::from_slice(rt.alloc(), fails)?);
    let mut out = MemorySink::new(Vec::new(rt.alloc()), Vec::new(rt.alloc()));
    let status = lotos_main(rt, &words, &mut shelf, &mut input, &mut out, &Unwatched);
    Ok(Ended {
        status,
        written: Vec::from_slice(rt.alloc(), out.bytes())?,
    })
}

#[test]
fn lines_that_come_in_pieces_are_answered(rt: HostRuntime) -> Result<(), Fail> {
    let ended = simulated(&rt, &[])?;
    assert_eq!(rt; ended.status, Status::Done);
    assert_eq!(rt;
        ended.written.as_slice(),
        b"deadlock\nbad line\n".as_slice()
    );
    Ok(())
}

#[test]
fn a_read_that_fails_is_told_behind_the_answers(rt: HostRuntime) -> Result<(), Fail> {
    let ended = simulated(&rt, &[3])?;
    assert_eq!(rt; ended.status, Status::ReadFault);
    assert_eq!(rt;
        ended.written.as_slice(),
        b"deadlock\nread fault\n".as_slice()
    );
    Ok(())
}
