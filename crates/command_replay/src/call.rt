// The call.

ghost use Rattle.std.specs.Prelude.{◌≡◌, ◌≤◌, IfOk, length};
ghost use Rattle.spec_core.specs.Code.{program_of};
ghost use Rattle.spec_core.specs.Ready.{IsReady};
ghost use Rattle.rule_model.specs.Logs.{events_of};
ghost use Rattle.trace_text.specs.Formats.{entry_line};
ghost use Rattle.command_replay.specs.Replays.{Comes, LogComes};
ghost use Rattle.command_replay.specs.declared.answer.Answer.TheVariants.{NotADerivation};

use crate::answer::Answer;
use log_check::{CheckFault, check};
use match_code::{Evaluator, Forms, Prepared};
use rule_model::log::Log;
use spec_core::code::Checked;
use spec_core::memory::Memory;
use std::alloc::Global;
use trace_reader::{Trace, TraceFault, read_trace};
use trace_text::Format;

// The answer for a log, in a format, whose entry of this number, from 0, isn't possible.
fn not_a_derivation(format: Format, log: &Log, entry: u64) -> Answer
    requires { entry ≤ length (events_of log.now) }
    ensures { result ≡ NotADerivation (entry_line format (events_of log.now) entry) }
{
    Answer::NotADerivation(trace_text::entry_line(format, log.as_slice(), entry as usize))
}

// What comes of a log whose trace is in a format.
#[tactic(auto, using(crate::proofs::Entries::within_log))]
fn judged(
    alloc: Global,
    checked: &Checked,
    format: Format,
    log: &Log,
    budget: u64,
) -> Result<Answer, Memory>
    requires ready { IsReady (program_of checked.now) }
    ensures { IfOk result (LogComes (program_of checked.now) format (events_of log.now) budget) }
{
    let forms = Forms::new(alloc, &checked.algebra)?;
    let prepared = Prepared {
        checked,
        evaluator: Evaluator::new(&checked.algebra, &forms),
    };
    match check(alloc, &prepared, log, budget) {
        Ok(actions) => Ok(Answer::Derivation(actions)),
        Err(CheckFault::NotPossible { entry }) => Ok(not_a_derivation(format, log, entry)),
        Err(CheckFault::Spent { term }) => Ok(Answer::Spent(term)),
        Err(CheckFault::TooLarge { term }) => Ok(Answer::TooLarge(term)),
        Err(CheckFault::Memory) => Err(Memory),
    }
}

/// Whether a text is the trace of a derivation of a specification, with at most `budget` uses of equations (1 to 2^32) for each term that
/// the trees of its actions ask.
///
/// The whole text is read first, so what is wrong with its form is told before anything of its log. Then each entry is taken in turn: what
/// the log alone decides of it is asked before its tree. Why a reply came, and the end, aren't asked.
pub fn replay_text(
    alloc: Global,
    checked: &Checked,
    text: &[u8],
    budget: u64,
) -> Result<Answer, Memory>
    requires ready { IsReady (program_of checked.now) }
    ensures comes { IfOk result (Comes (program_of checked.now) text.now budget) }
{
    match read_trace(alloc, text, checked) {
        Ok(
            Trace {
                log,
                end: _,
                format,
            },
        ) => judged(alloc, checked, format, &log, budget),
        Err(TraceFault::Line { line, kind }) => Ok(Answer::Refused { line, kind }),
        Err(TraceFault::Memory) => Err(Memory),
    }
}
