// The command `selfrun`.

ghost use Rattle.std.specs.Prelude.{◌<◌, ◌≤◌, IfOk};
ghost use Rattle.lotos_run.specs.Selfruns.{IsSelfrunDue};

use crate::answer::Answer;
use crate::check_text::refusal_text;
use crate::run_text::{SessionText, answer_status, answer_text};
use crate::status::Status;
use command_selfrun::{Answer as Generated, run_generated};
use spec_core::memory::Memory;
use std::alloc::Global;
use std::sync::Wait;
use std::thread::Threads;
use worker_drive::Probe;

/// What is due for the texts of a seed and a size, from 1 to 64: the line with the counts of their session, which has so many workers, from 0
/// to 64; or why there is none.
pub fn selfrun<R: Threads + Wait + Sync, P: Probe + Sync>(
    rt: &R,
    alloc: Global,
    seed: u32,
    size: u32,
    workers: u32,
    probe: &P,
) -> Result<Answer, Memory>
    requires some { 0 < size }
    requires few { size ≤ 64 }
    requires workers { workers ≤ 64 }
    ensures { IfOk result (λ a. IsSelfrunDue seed size a.status a.text.items) }
{
    match run_generated(rt, alloc, seed, size, workers, probe)? {
        Generated::Refused(refusal) => Ok(Answer {
            status: Status::Refused,
            text: refusal_text(alloc, &refusal)?,
        }),
        Generated::Accepted(checked, came) => Ok(Answer {
            status: answer_status(&came),
            text: answer_text(alloc, &checked, &came, SessionText::Counts)?,
        }),
    }
}
