// What `run` and `selfrun` print.

ghost use Rattle.std.specs.Prelude.{◌≡◌, IfOk};
ghost use Rattle.rule_model.specs.Events.{ending_of};
ghost use Rattle.rule_model.specs.Logs.{events_of};
ghost use Rattle.spec_core.specs.Code.{program_of};
ghost use Rattle.lotos_run.specs.RunTexts as texts;

use crate::lines::{bytes_of, script_refusal, term_line};
use crate::status::Status;
use command_run::Answer;
use command_selfrun::counts_line;
use rule_model::log::{End, Log};
use spec_core::code::Checked;
use spec_core::memory::Memory;
use std::alloc::Global;
use trace_text::{Format, print_log};

/// What is printed of a session.
#[derive(Clone, Copy)]
pub enum SessionText {
    /// Its trace in a format.
    Trace(Format),
    /// The line with its counts.
    Counts,
}

// What is printed of a session.
fn session_text(
    alloc: Global,
    checked: &Checked,
    log: &Log,
    end: &End,
    printed: SessionText,
) -> Result<Vec<u8>, Memory>
    ensures { IfOk result (λ text.
        text.items ≡ texts.session_text printed (program_of checked.now) (events_of log.now) (ending_of end.now)) }
{
    match printed {
        SessionText::Trace(format) => {
            let trace = print_log(alloc, log, end, format, checked)?;
            bytes_of(alloc, &trace)
        }
        SessionText::Counts => {
            let line = counts_line(alloc, log, end, checked)?;
            bytes_of(alloc, &line)
        }
    }
}

/// What comes of a script as it is printed.
pub fn answer_text(
    alloc: Global,
    checked: &Checked,
    answer: &Answer,
    printed: SessionText,
) -> Result<Vec<u8>, Memory>
    ensures { IfOk result (λ text. text.items ≡ texts.text_of printed (program_of checked.now) answer.now) }
{
    match answer {
        Answer::Ran(log, end) => session_text(alloc, checked, log, end, printed),
        Answer::Spent(term) => term_line(alloc, "spent ", &checked.algebra, term),
        Answer::TooLarge(term) => term_line(alloc, "large ", &checked.algebra, term),
        Answer::Refused { line, kind } => script_refusal(alloc, *line, *kind),
    }
}

// The status that is due with how a session ends.
fn end_status(end: &End) -> Status
    ensures { result ≡ texts.status_of_end end.now }
{
    match end {
        End::Exit => Status::Done,
        End::Deadlock => Status::Done,
        End::Waiting => Status::Done,
        End::Beyond => Status::Done,
        End::Spent(_) => Status::Spent,
        End::TooLarge(_) => Status::Limit,
        End::Limit(_) => Status::Limit,
    }
}

/// The status that is due with what comes of a script.
pub fn answer_status(answer: &Answer) -> Status
    ensures { result ≡ texts.status_of answer.now }
{
    match answer {
        Answer::Ran(_, end) => end_status(end),
        Answer::Spent(_) => Status::Spent,
        Answer::TooLarge(_) => Status::Limit,
        Answer::Refused { .. } => Status::ScriptRefused,
    }
}
