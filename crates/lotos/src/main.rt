//! The program: it makes the real shelf and streams, and ends with the number of the status.
#![tactic(auto)]

use lotos_outside::file_shelf::FileShelf;
use lotos_outside::stream_sink::StreamSink;
use lotos_outside::stream_source::StreamSource;
use lotos_run::lotos_main;
use lotos_run::status::Status;
use std::io::{Input, Print};
use std::process::ExitCode;
use std::rt::{Env, Files};
use std::sync::Wait;
use std::thread::{Builder, Threads};
use std::{env, io, thread};
use worker_drive::Probe;

// The stack on which a command is carried out, in bytes. `docs/TRUST.md` says what it holds. What isn't used takes addresses and no
// memory.
const STACK: usize = 0x4000_0000;

/// Looks at no job.
struct Unwatched;

impl Probe for Unwatched {
    fn before(&self, _job: u64) {}
}

// The words behind the program's name. A word that isn't UTF-8 is no word of any call, so then there are none.
fn words(rt: &(impl Env + AllocGlobal)) -> Result<Vec<String>, io::Error> {
    match env::args(rt) {
        Ok(all) => Ok(all.skip(1).collect(rt.alloc())?),
        Err(fault) if fault.kind() == io::ErrorKind::InvalidData => Ok(Vec::new(rt.alloc())),
        Err(fault) => Err(fault),
    }
}

// Carries out the command that the words name.
fn carry_out<R: AllocGlobal + Env + Files + Input + Print + Threads + Wait + Sync>(
    rt: &R,
) -> Status {
    let mut shelf = FileShelf::new(rt);
    let mut input = StreamSource::new(rt.reader());
    let mut out = StreamSink::new(io::writer(rt));
    match words(rt) {
        Ok(words) => lotos_main(rt, &words, &mut shelf, &mut input, &mut out, &Unwatched),
        Err(_) => Status::Memory,
    }
}

// The command has a thread with a stack of its own. Where that can't be started, it is carried out here.
fn main(rt: HostRuntime) -> ExitCode {
    let deep = Builder::new().stack_size(STACK);
    let status = thread::scope(thread::scope_env(), &rt, |scope| {
        match deep.spawn_scoped(scope, || carry_out(&rt)) {
            Ok(thread) => thread.join(&rt),
            Err(_) => carry_out(&rt),
        }
    });
    ExitCode::from(status.number())
}
