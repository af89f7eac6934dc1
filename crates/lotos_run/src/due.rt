// What is due for the words of a call.

ghost use Rattle.std.specs.Prelude.{◌∷◌, [], IfOk, Some, map, string_bytes};
ghost use Rattle.command_words.specs.Commands.{command_of, sim};
ghost use Rattle.lotos_run.specs.Due.{IsDueNow};
ghost use Rattle.lotos_run.specs.Fetches.{named_files, IsAskedFor};
ghost use Rattle.lotos_run.specs.Outside.{shelved};

use crate::answer::{Answer, with_text};
use crate::check::check;
use crate::equal::equal;
use crate::second_file::{Second, over_specification};
use crate::selfrun::selfrun;
use crate::sim::{Opened, open_file};
use crate::status::Status;
use command_words::{Command, read_command};
use lotos_outside::shelf::Shelf;
use run_settings::settings::Settings;
use spec_core::code::Checked;
use spec_core::memory::Memory;
use std::alloc::Global;
use std::sync::Wait;
use std::thread::Threads;
use worker_drive::Probe;

/// What is due for words, once their files were fetched.
#[derive(Drop)]
pub enum Due {
    /// A text with a status.
    Text(Answer),
    /// A simulation of this specification, by these settings.
    Simulation(Checked, Settings),
}

// What is due for a specification that is to be simulated.
fn due_simulation<F: Shelf>(
    alloc: Global,
    shelf: &mut F,
    specification: &str,
    settings: Settings,
) -> Result<Due, Memory>
    ensures due { IfOk result (IsDueNow (shelved (F.files shelf.old) (F.failed shelf.old) (F.failed shelf.new))
        (Some (sim specification.now settings))) }
    ensures asked { IsAskedFor F.fetches (specification.now ∷ []) shelf.old shelf.new }
{
    match open_file(alloc, shelf, specification)? {
        Opened::Accepted(checked) => Ok(Due::Simulation(checked, settings)),
        Opened::Instead(answer) => Ok(Due::Text(answer)),
    }
}

/// What is due for the words.
#[tactic(auto, using(crate::proofs::Fetches::asked_nothing))]
pub fn due_for<R: Threads + Wait + Sync, F: Shelf, P: Probe + Sync>(
    rt: &R,
    alloc: Global,
    words: &[String],
    shelf: &mut F,
    probe: &P,
) -> Result<Due, Memory>
    ensures due { IfOk result (IsDueNow (shelved (F.files shelf.old) (F.failed shelf.old) (F.failed shelf.new))
        (command_of (map string_bytes words.now))) }
    ensures asked { IsAskedFor F.fetches (named_files (command_of (map string_bytes words.now))) shelf.old shelf.new }
{
    match read_command(alloc, words)? {
        None => Ok(Due::Text(with_text(alloc, Status::Usage, b"usage\n")?)),
        Some(
            Command::Run {
                specification,
                script,
                settings,
                workers,
                format,
            },
        ) => Ok(Due::Text(over_specification(
            rt,
            alloc,
            shelf,
            specification,
            script,
            Second::Script(settings, workers, format),
            probe,
        )?)),
        Some(Command::Check { specification }) => Ok(Due::Text(check(
            alloc,
            shelf,
            specification,
        )?)),
        Some(
            Command::Equal {
                specification,
                first,
                second,
                budget,
            },
        ) => Ok(Due::Text(equal(alloc, shelf, specification, first, second, budget)?)),
        Some(
            Command::Replay {
                specification,
                trace,
                budget,
            },
        ) => Ok(Due::Text(over_specification(
            rt,
            alloc,
            shelf,
            specification,
            trace,
            Second::Trace(budget),
            probe,
        )?)),
        Some(
            Command::Migrate {
                specification,
                trace,
            },
        ) => Ok(Due::Text(over_specification(
            rt,
            alloc,
            shelf,
            specification,
            trace,
            Second::Migration,
            probe,
        )?)),
        Some(
            Command::Sim {
                specification,
                settings,
            },
        ) => due_simulation(alloc, shelf, specification, settings),
        Some(
            Command::Selfrun {
                seed,
                size,
                workers,
            },
        ) => Ok(Due::Text(selfrun(rt, alloc, seed, size, workers, probe)?)),
    }
}
