// What `equal` prints.

ghost use Rattle.std.specs.Prelude.{◌≡◌, IfOk};
ghost use Rattle.spec_core.specs.Theories.{theory_of};
ghost use Rattle.lotos_run.specs.EqualTexts as texts;

use crate::lines::{bytes_of, script_refusal, term_line};
use crate::status::Status;
use command_equal::Answer;
use spec_core::equation::DataSpec;
use spec_core::memory::Memory;
use std::alloc::Global;

/// What comes of two terms as it is printed.
pub fn answer_text(alloc: Global, algebra: &DataSpec, answer: &Answer) -> Result<Vec<u8>, Memory>
    ensures { IfOk result (λ text. text.items ≡ texts.text_of (theory_of algebra.now) answer.now) }
{
    match answer {
        Answer::Equal => bytes_of(alloc, "true\n"),
        Answer::Unequal => bytes_of(alloc, "false\n"),
        Answer::Spent(term) => term_line(alloc, "spent ", algebra, term),
        Answer::TooLarge(term) => term_line(alloc, "large ", algebra, term),
        Answer::Refused { line, kind } => script_refusal(alloc, *line, *kind),
    }
}

/// The status that is due with it.
pub fn answer_status(answer: &Answer) -> Status
    ensures { result ≡ texts.status_of answer.now }
{
    match answer {
        Answer::Equal | Answer::Unequal => Status::Done,
        Answer::Spent(_) => Status::Spent,
        Answer::TooLarge(_) => Status::Limit,
        Answer::Refused { .. } => Status::ScriptRefused,
    }
}
