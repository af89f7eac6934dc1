// What `replay` prints.

ghost use Rattle.std.specs.Prelude.{◌≡◌, IfOk};
ghost use Rattle.spec_core.specs.Theories.{theory_of};
ghost use Rattle.lotos_run.specs.ReplayTexts as texts;

use crate::lines::{bytes_of, script_refusal, term_line};
use crate::status::Status;
use command_replay::Answer;
use spec_core::equation::DataSpec;
use spec_core::memory::Memory;
use std::alloc::Global;

// A number behind a word.
fn number_line(alloc: Global, word: &str, number: u64) -> Result<Vec<u8>, Memory>
    ensures { IfOk result (λ text. text.items ≡ texts.number_line word.now number) }
{
    let text = format!(in alloc; "{word}{number}\n")?;
    bytes_of(alloc, &text)
}

/// What comes of a trace as it is printed.
pub fn answer_text(alloc: Global, algebra: &DataSpec, answer: &Answer) -> Result<Vec<u8>, Memory>
    ensures { IfOk result (λ text. text.items ≡ texts.text_of (theory_of algebra.now) answer.now) }
{
    match answer {
        Answer::Derivation(actions) => number_line(alloc, "derivation ", *actions),
        Answer::NotADerivation(line) => number_line(alloc, "not a derivation ", *line),
        Answer::Spent(term) => term_line(alloc, "spent ", algebra, term),
        Answer::TooLarge(term) => term_line(alloc, "large ", algebra, term),
        Answer::Refused { line, kind } => script_refusal(alloc, *line, *kind),
    }
}

/// The status that is due with it.
pub fn answer_status(answer: &Answer) -> Status
    ensures { result ≡ texts.status_of answer.now }
{
    match answer {
        Answer::Derivation(_) => Status::Done,
        Answer::NotADerivation(_) => Status::NotADerivation,
        Answer::Spent(_) => Status::Spent,
        Answer::TooLarge(_) => Status::Limit,
        Answer::Refused { .. } => Status::ScriptRefused,
    }
}
