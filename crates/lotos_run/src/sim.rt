// The command `sim`.

ghost use Rattle.std.specs.Prelude.{◌≡◌, ◌∷◌, ◌⊎◌, [], IfOk};
ghost use Rattle.spec_core.specs.Code.{program_of};
ghost use Rattle.spec_core.specs.Ready.{IsReady};
ghost use Rattle.lotos_outside.specs.Counts.{Rose};
ghost use Rattle.command_sim.specs.Inputs.{inlet};
ghost use Rattle.command_sim.specs.Simulations.{IsCut};
ghost use Rattle.lotos_run.specs.Fetches.{IsAskedFor};
ghost use Rattle.lotos_run.specs.Outside.{shelved};
ghost use Rattle.lotos_run.specs.Sims.{status_of, EndsWith, IsFileOpened, IsOpened};
ghost use Rattle.lotos_run.specs.Statuses.{IsFinal};

use crate::answer::{Answer, fetch, with_text};
use crate::check_text::refusal_text;
use crate::status::Status;
use command_selfrun::accepted_is_ready;
use command_sim::{End, simulate};
use lotos_ast::refusal::FrontFault;
use lotos_front::accept;
use lotos_outside::shelf::{Shelf, ShelfFault};
use lotos_outside::sink::{Sink, SinkFault};
use lotos_outside::source::Source;
use run_settings::settings::Settings;
use spec_core::code::Checked;
use spec_core::memory::Memory;
use std::alloc::Global;

/// The specification that is to be simulated.
#[derive(Drop)]
pub enum Opened {
    /// It is accepted.
    Accepted(Checked),
    /// It isn't, or couldn't be read: what is due in place of its simulation.
    Instead(Answer),
}

// The specification with this text.
fn open_text(alloc: Global, text: &[u8]) -> Result<Opened, Memory>
    ensures { IfOk result (IsOpened text.now) }
{
    accepted_is_ready();
    match accept(alloc, text) {
        Ok(checked) => Ok(Opened::Accepted(checked)),
        Err(FrontFault::Refused(refusal)) => Ok(Opened::Instead(Answer {
            status: Status::Refused,
            text: refusal_text(alloc, &refusal)?,
        })),
        Err(FrontFault::Memory) => Err(Memory),
    }
}

/// The specification in a file.
#[tactic(auto, using(crate::proofs::Sims::file_opened, crate::proofs::Fetches::asked_first))]
pub fn open_file<F: Shelf>(
    alloc: Global,
    shelf: &mut F,
    specification: &str,
) -> Result<Opened, Memory>
    ensures opened { IfOk result (IsFileOpened (shelved (F.files shelf.old) (F.failed shelf.old) (F.failed shelf.new)) specification.now) }
    ensures asked { IsAskedFor F.fetches (specification.now ∷ []) shelf.old shelf.new }
{
    match fetch(alloc, shelf, specification, 4_194_305) {
        Err(ShelfFault::Failed) => Ok(Opened::Instead(with_text(
            alloc,
            Status::ReadFault,
            b"read fault\n",
        )?)),
        Err(ShelfFault::Memory) => Err(Memory),
        Ok(bytes) => open_text(alloc, &bytes),
    }
}

// The status with which a simulation ends.
fn end_status(end: End) -> Status
    ensures { result ≡ status_of end }
{
    match end {
        End::Done => Status::Done,
        End::Spent => Status::Spent,
        End::Limit => Status::Limit,
        End::Unread => Status::ReadFault,
    }
}

/// Simulates an accepted specification: each line of the input is answered at once.
pub fn run_simulation<I: Source, O: Sink>(
    alloc: Global,
    checked: &Checked,
    settings: Settings,
    input: &mut I,
    out: &mut O,
) -> Status
    requires ready { IsReady (program_of checked.now) }
    ensures ok { IsFinal result → EndsWith (program_of checked.now) settings
        (inlet (I.rest input.old) (I.rest input.new) (I.faults input.old) (I.faults input.new)) (O.written out.old) (O.written out.new) result }
    ensures write_fault { result ≡ Status.WriteFault → Rose (O.faults out.old) (O.faults out.new) }
    ensures cut { result ≡ Status.WriteFault → IsCut (program_of checked.now) settings
        (inlet (I.rest input.old) (I.rest input.new) (I.faults input.old) (I.faults input.new)) (O.written out.old) (O.written out.new) }
    ensures memory { result ≡ Status.Memory → (O.written out.new ≡ O.written out.old) ⊎ IsCut (program_of checked.now) settings
        (inlet (I.rest input.old) (I.rest input.new) (I.faults input.old) (I.faults input.new)) (O.written out.old) (O.written out.new) }
{
    match simulate(alloc, checked, settings, input, out) {
        Ok(end) => end_status(end),
        Err(SinkFault::Failed) => Status::WriteFault,
        Err(SinkFault::Memory) => Status::Memory,
    }
}
