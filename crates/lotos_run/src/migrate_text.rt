// What `migrate` prints.

ghost use Rattle.std.specs.Prelude.{◌≡◌, IfOk};
ghost use Rattle.lotos_run.specs.Migrations as texts;

use crate::lines::{bytes_of, script_refusal};
use crate::status::Status;
use command_migrate::Answer;
use spec_core::memory::Memory;
use std::alloc::Global;

/// What comes of a trace as it is printed.
pub fn answer_text(alloc: Global, answer: &Answer) -> Result<Vec<u8>, Memory>
    ensures { IfOk result (λ text. text.items ≡ texts.text_of answer.now) }
{
    match answer {
        Answer::Migrated(trace) => bytes_of(alloc, trace),
        Answer::Refused { line, kind } => script_refusal(alloc, *line, *kind),
    }
}

/// The status that is due with it.
pub fn answer_status(answer: &Answer) -> Status
    ensures { result ≡ texts.status_of answer.now }
{
    match answer {
        Answer::Migrated(_) => Status::Done,
        Answer::Refused { .. } => Status::ScriptRefused,
    }
}
