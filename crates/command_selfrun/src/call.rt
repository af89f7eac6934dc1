// The call.

ghost use Rattle.std.specs.Prelude.{◌≡◌, ◌<◌, ◌≤◌, IfOk};
ghost use Rattle.command_selfrun.specs.Runs.{settings, Comes, ComesOfTexts};

use crate::answer::Answer;
use command_run::run_text;
use front_laws::accepted::accepted_is_ready;
use lotos_ast::refusal::FrontFault;
use lotos_front::accept;
use run_settings::settings::{Draw, Settings};
use spec_core::memory::Memory;
use spec_generator::generate;
use std::alloc::Global;
use std::sync::Wait;
use std::thread::Threads;
use worker_drive::Probe;

// Within what the session is run.
fn settings() -> Settings
    ensures { result ≡ settings }
{
    Settings {
        budget: 1_000_000,
        values: 16,
        steps: 1_000_000,
        seed: 0,
        draw: Draw::Rotation,
    }
}

// What comes of a specification and a script. So many workers, from 0 to 64, do jobs meanwhile, of each of which the probe is told before.
fn run_texts<R: Threads + Wait + Sync, P: Probe + Sync>(
    rt: &R,
    alloc: Global,
    specification: &[u8],
    script: &[u8],
    workers: u32,
    probe: &P,
) -> Result<Answer, Memory>
    requires workers { workers ≤ 64 }
    ensures { IfOk result (ComesOfTexts specification.now script.now) }
{
    accepted_is_ready();
    match accept(alloc, specification) {
        Err(FrontFault::Refused(refusal)) => Ok(Answer::Refused(refusal)),
        Err(FrontFault::Memory) => Err(Memory),
        Ok(checked) => {
            let came = run_text(rt, alloc, &checked, script, settings(), workers, probe)?;
            Ok(Answer::Accepted(checked, came))
        }
    }
}

/// The session of the script that is generated from a seed for a chain of `size` cells, from 1 to 64, over the specification of that chain.
/// So many workers, from 0 to 64, do jobs meanwhile, of each of which the probe is told before.
pub fn run_generated<R: Threads + Wait + Sync, P: Probe + Sync>(
    rt: &R,
    alloc: Global,
    seed: u32,
    size: u32,
    workers: u32,
    probe: &P,
) -> Result<Answer, Memory>
    requires some { 0 < size }
    requires few { size ≤ 64 }
    requires workers { workers ≤ 64 }
    ensures { IfOk result (Comes seed size) }
{
    let (specification, script) = generate(alloc, seed, size)?;
    run_texts(
        rt,
        alloc,
        specification.as_bytes(),
        script.as_bytes(),
        workers,
        probe,
    )
}
