// Commands that read a second file over a specification: `run`, `replay` and `migrate`.

ghost use Rattle.std.specs.Prelude.{◌≡◌, ◌≤◌, ◌∷◌, [], IfOk};
ghost use Rattle.spec_core.specs.Code.{program_of};
ghost use Rattle.spec_core.specs.Ready.{IsReady};
ghost use Rattle.lotos_run.specs.Fetches.{IsAskedFor};
ghost use Rattle.lotos_run.specs.Migrations.{IsMigratedDue};
ghost use Rattle.lotos_run.specs.Outside.{shelved};
ghost use Rattle.lotos_run.specs.Replays.{IsReplayed};
ghost use Rattle.lotos_run.specs.Runs.{IsScripted};
ghost use Rattle.lotos_run.specs.SecondFiles.{most, SecondComes, HasFewWorkers, IsDueForSecond, IsDueForText, IsSecondDue};

use crate::answer::{Answer, fetch, with_text};
use crate::check_text::refusal_text;
use crate::run_text::SessionText;
use crate::status::Status;
use crate::{migrate_text, replay_text, run_text};
use command_migrate::migrate_text as migrate_trace;
use command_replay::replay_text as replay_trace;
use command_run::run_text as run_script;
use command_selfrun::accepted_is_ready;
use lotos_ast::refusal::FrontFault;
use lotos_front::accept;
use lotos_outside::shelf::{Shelf, ShelfFault};
use run_settings::settings::Settings;
use spec_core::code::Checked;
use spec_core::memory::Memory;
use std::alloc::Global;
use std::sync::Wait;
use std::thread::Threads;
use trace_text::Format;
use worker_drive::Probe;

/// What the second file is to be.
#[derive(Clone, Copy)]
pub enum Second {
    /// A script, whose session is run, with so many workers, from 0 to 64, and whose trace is printed in a format.
    Script(Settings, u32, Format),
    /// A trace, which is replayed, with at most so many uses of equations for each term, from 1 to 2^32.
    Trace(u64),
    /// A trace, which is printed in format 2.
    Migration,
}

impl Second {
    // How many bytes of it are fetched: one more than it may have.
    fn most(self) -> usize
        ensures { result ≡ most self }
    {
        match self {
            Second::Script(..) => 1_048_577,
            Second::Trace(_) => 67_108_865,
            Second::Migration => 67_108_865,
        }
    }
}

// What comes of a script.
fn scripted<R: Threads + Wait + Sync, P: Probe + Sync>(
    rt: &R,
    alloc: Global,
    checked: &Checked,
    text: &[u8],
    settings: Settings,
    workers: u32,
    format: Format,
    probe: &P,
) -> Result<Answer, Memory>
    requires ready { IsReady (program_of checked.now) }
    requires workers { workers ≤ 64 }
    ensures { IfOk result (λ a. IsScripted (program_of checked.now) text.now settings format a.status a.text.items) }
{
    let came = run_script(rt, alloc, checked, text, settings, workers, probe)?;
    Ok(Answer {
        status: run_text::answer_status(&came),
        text: run_text::answer_text(alloc, checked, &came, SessionText::Trace(format))?,
    })
}

// What comes of a trace.
fn replayed(alloc: Global, checked: &Checked, text: &[u8], budget: u64) -> Result<Answer, Memory>
    requires ready { IsReady (program_of checked.now) }
    ensures { IfOk result (λ a. IsReplayed (program_of checked.now) text.now budget a.status a.text.items) }
{
    let came = replay_trace(alloc, checked, text, budget)?;
    Ok(Answer {
        status: replay_text::answer_status(&came),
        text: replay_text::answer_text(alloc, &checked.algebra, &came)?,
    })
}

// What comes of a trace that is to be in format 2.
fn migrated(alloc: Global, checked: &Checked, text: &[u8]) -> Result<Answer, Memory>
    requires ready { IsReady (program_of checked.now) }
    ensures { IfOk result (λ a. IsMigratedDue (program_of checked.now) text.now a.status a.text.items) }
{
    let came = migrate_trace(alloc, checked, text)?;
    Ok(Answer {
        status: migrate_text::answer_status(&came),
        text: migrate_text::answer_text(alloc, &came)?,
    })
}

// What comes of the text of the second file, over an accepted specification.
fn come<R: Threads + Wait + Sync, P: Probe + Sync>(
    rt: &R,
    alloc: Global,
    checked: &Checked,
    text: &[u8],
    second: Second,
    probe: &P,
) -> Result<Answer, Memory>
    requires ready { IsReady (program_of checked.now) }
    requires workers { HasFewWorkers second }
    ensures { IfOk result (λ a. SecondComes second (program_of checked.now) text.now a.status a.text.items) }
{
    match second {
        Second::Script(settings, workers, format) => {
            scripted(rt, alloc, checked, text, settings, workers, format, probe)
        },
        Second::Trace(budget) => replayed(alloc, checked, text, budget),
        Second::Migration => migrated(alloc, checked, text),
    }
}

// What is due for the second file, over an accepted specification.
#[tactic(auto, using(crate::proofs::SecondFiles::second_due, crate::proofs::Fetches::asked_first))]
fn read_second<R: Threads + Wait + Sync, F: Shelf, P: Probe + Sync>(
    rt: &R,
    alloc: Global,
    shelf: &mut F,
    checked: &Checked,
    name: &str,
    second: Second,
    probe: &P,
) -> Result<Answer, Memory>
    requires ready { IsReady (program_of checked.now) }
    requires workers { HasFewWorkers second }
    ensures due { IfOk result (λ a. IsDueForSecond (shelved (F.files shelf.old) (F.failed shelf.old) (F.failed shelf.new))
        second (program_of checked.now) name.now a.status a.text.items) }
    ensures asked { IsAskedFor F.fetches (name.now ∷ []) shelf.old shelf.new }
{
    match fetch(alloc, shelf, name, second.most()) {
        Err(ShelfFault::Failed) => with_text(alloc, Status::ReadFault, b"read fault\n"),
        Err(ShelfFault::Memory) => Err(Memory),
        Ok(bytes) => come(rt, alloc, checked, &bytes, second, probe),
    }
}

// What is due for the second file, over a text that is to be a specification.
#[tactic(auto, using(crate::proofs::Fetches::asked_nothing))]
fn read_over<R: Threads + Wait + Sync, F: Shelf, P: Probe + Sync>(
    rt: &R,
    alloc: Global,
    shelf: &mut F,
    text: &[u8],
    name: &str,
    second: Second,
    probe: &P,
) -> Result<Answer, Memory>
    requires workers { HasFewWorkers second }
    ensures due { IfOk result (λ a. IsDueForText (shelved (F.files shelf.old) (F.failed shelf.old) (F.failed shelf.new))
        second text.now name.now a.status a.text.items) }
    ensures asked { IsAskedFor F.fetches (name.now ∷ []) shelf.old shelf.new }
{
    accepted_is_ready();
    match accept(alloc, text) {
        Ok(checked) => read_second(rt, alloc, shelf, &checked, name, second, probe),
        Err(FrontFault::Refused(refusal)) => Ok(Answer {
            status: Status::Refused,
            text: refusal_text(alloc, &refusal)?,
        }),
        Err(FrontFault::Memory) => Err(Memory),
    }
}

/// What is due for the specification in the one file and the script or the trace in the other: of a script, the trace of its session; of a
/// trace, whether its log is a derivation, or the trace in format 2; or why that isn't so; or the specification's first refusal.
#[tactic(auto, using(crate::proofs::SecondFiles::text_due, crate::proofs::Fetches::asked_first, crate::proofs::Fetches::asked_more))]
pub fn over_specification<R: Threads + Wait + Sync, F: Shelf, P: Probe + Sync>(
    rt: &R,
    alloc: Global,
    shelf: &mut F,
    specification: &str,
    name: &str,
    second: Second,
    probe: &P,
) -> Result<Answer, Memory>
    requires workers { HasFewWorkers second }
    ensures due { IfOk result (λ a. IsSecondDue (shelved (F.files shelf.old) (F.failed shelf.old) (F.failed shelf.new)) second
        specification.now name.now a.status a.text.items) }
    ensures asked { IsAskedFor F.fetches (specification.now ∷ name.now ∷ []) shelf.old shelf.new }
{
    match fetch(alloc, shelf, specification, 4_194_305) {
        Err(ShelfFault::Failed) => with_text(alloc, Status::ReadFault, b"read fault\n"),
        Err(ShelfFault::Memory) => Err(Memory),
        Ok(bytes) => read_over(rt, alloc, shelf, &bytes, name, second, probe),
    }
}
