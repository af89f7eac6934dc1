//! The program's commands.
#![tactic(auto)]

mod answer;
mod check;
mod check_text;
mod due;
mod equal;
mod equal_text;
mod lines;
mod migrate_text;
mod replay_text;
mod run_text;
mod second_file;
mod selfrun;
mod sim;
pub mod status;

ghost use Rattle.std.specs.Prelude.{◌≡◌, map, string_bytes};
ghost use Rattle.lotos_outside.specs.Counts.{Rose};
ghost use Rattle.lotos_outside.specs.Sink.{with_more, AppendsPrefix};
ghost use Rattle.command_sim.specs.Inputs.{inlet};
ghost use Rattle.command_words.specs.Commands.{command_of};
ghost use Rattle.lotos_run.specs.Derivations.{WritesDerivation};
ghost use Rattle.lotos_run.specs.Due.{IsAnswered, IsBrokenOff, IsCutShort, LeavesInput};
ghost use Rattle.lotos_run.specs.Fetches.{named_files, IsAskedFor};
ghost use Rattle.lotos_run.specs.Outside.{outside, shelved};
ghost use Rattle.lotos_run.specs.Statuses.{IsFinal};

use crate::due::{Due, due_for};
use crate::sim::run_simulation;
use crate::status::Status;
use lotos_outside::shelf::Shelf;
use lotos_outside::sink::{Sink, SinkFault, write_all};
use lotos_outside::source::Source;
use std::sync::Wait;
use std::thread::Threads;
use worker_drive::Probe;

// Writes the text that is due with the status.
fn write<O: Sink>(out: &mut O, status: Status, text: &[u8]) -> Status
    requires { IsFinal status }
    ensures same { IsFinal result → result ≡ status }
    ensures written { IsFinal result → O.written out.new ≡ with_more text.now (O.written out.old) }
    ensures prefix { AppendsPrefix text.now (O.written out.old) (O.written out.new) }
    ensures write_fault { result ≡ Status.WriteFault → Rose (O.faults out.old) (O.faults out.new) }
{
    match write_all(out, text) {
        Ok(()) => status,
        Err(SinkFault::Failed) => Status::WriteFault,
        Err(SinkFault::Memory) => Status::Memory,
    }
}

/// Carries out the command that the words name.
///
/// `words` are the words behind the program's name, `shelf` is where files are fetched, and all texts go to `out`. `sim` alone reads `input`,
/// and answers each line at once. In `run` and `selfrun` each client and each worker has a thread, as far as threads can be started, and
/// `probe` is told of each job before a worker does it. Want of memory may come at any time; nothing is said of its cause.
#[tactic(auto, using(crate::proofs::Final::due_final))]
pub fn lotos_main<
    R: AllocGlobal + Threads + Wait + Sync,
    F: Shelf,
    I: Source,
    O: Sink,
    P: Probe + Sync,
>(rt: &R, words: &[String], shelf: &mut F, input: &mut I, out: &mut O, probe: &P) -> Status
    // A final status is due, and the text that is due with it was written.
    ensures due { IsFinal result →
        IsAnswered (outside (shelved (F.files shelf.old) (F.failed shelf.old) (F.failed shelf.new))
        (inlet (I.rest input.old) (I.rest input.new) (I.faults input.old) (I.faults input.new)) (O.written out.old) (O.written out.new))
        (command_of (map string_bytes words.now)) result }

    // Where the output failed, the sink noted a fault in this call, and a prefix of the text that was due was written.
    ensures write_fault { result ≡ Status.WriteFault → Rose (O.faults out.old) (O.faults out.new) }
    ensures prefix { result ≡ Status.WriteFault →
        IsCutShort (outside (shelved (F.files shelf.old) (F.failed shelf.old) (F.failed shelf.new))
        (inlet (I.rest input.old) (I.rest input.new) (I.faults input.old) (I.faults input.new)) (O.written out.old) (O.written out.new))
        (command_of (map string_bytes words.now)) }

    // Where memory was wanting, nothing was written, or a prefix of a text that was due.
    ensures memory { result ≡ Status.Memory →
        IsBrokenOff (outside (shelved (F.files shelf.old) (F.failed shelf.old) (F.failed shelf.new))
        (inlet (I.rest input.old) (I.rest input.new) (I.faults input.old) (I.faults input.new)) (O.written out.old) (O.written out.new))
        (command_of (map string_bytes words.now)) }

    // Whatever the status: a trace that `run` wrote, or as much of it as was written, is that of a log in which each entry is possible by the
    // inference rules, from the specification's behaviour on.
    ensures derivation { WritesDerivation (F.files shelf.old) (O.written out.old) (O.written out.new) result
        (command_of (map string_bytes words.now)) }

    // Whatever the status: the shelf was asked for files that the words name and for no other, so it is as it was where the words name no
    // command; and where they don't name `sim`, the input is as it was.
    ensures asked { IsAskedFor F.fetches (named_files (command_of (map string_bytes words.now))) shelf.old shelf.new }
    ensures input { LeavesInput (command_of (map string_bytes words.now)) input.old input.new }
{
    match due_for(rt, rt.alloc(), words, shelf, probe) {
        Ok(Due::Text(answer)) => write(out, answer.status, &answer.text),
        Ok(Due::Simulation(checked, settings)) => {
            run_simulation(rt.alloc(), &checked, settings, input, out)
        },
        Err(_) => Status::Memory,
    }
}
