// The command `equal`.

ghost use Rattle.std.specs.Prelude.{◌∷◌, [], IfOk};
ghost use Rattle.spec_core.specs.Executable.{IsExecutable};
ghost use Rattle.spec_core.specs.Theories.{theory_of};
ghost use Rattle.lotos_run.specs.Equals.{IsCompared, IsComparedIn, IsEqualDue};
ghost use Rattle.lotos_run.specs.Fetches.{IsAskedFor};
ghost use Rattle.lotos_run.specs.Outside.{shelved};

use crate::answer::{Answer, fetch, with_text};
use crate::check_text::refusal_text;
use crate::equal_text::{answer_status, answer_text};
use crate::status::Status;
use command_equal::compare_texts;
use command_selfrun::accepted_is_ready;
use lotos_ast::refusal::FrontFault;
use lotos_front::accept;
use lotos_outside::shelf::{Shelf, ShelfFault};
use spec_core::code::Checked;
use spec_core::memory::Memory;
use std::alloc::Global;

// What is due for an accepted specification.
fn compared(
    alloc: Global,
    checked: &Checked,
    first: &str,
    second: &str,
    budget: u64,
) -> Result<Answer, Memory>
    requires executable { IsExecutable (theory_of checked.now.algebra) }
    ensures { IfOk result (λ a.
        IsCompared (theory_of checked.now.algebra) first.now second.now budget a.status a.text.items) }
{
    let came = compare_texts(alloc, checked, first.as_bytes(), second.as_bytes(), budget)?;
    Ok(Answer {
        status: answer_status(&came),
        text: answer_text(alloc, &checked.algebra, &came)?,
    })
}

// What is due for a text.
fn compared_in(
    alloc: Global,
    text: &[u8],
    first: &str,
    second: &str,
    budget: u64,
) -> Result<Answer, Memory>
    ensures { IfOk result (λ a. IsComparedIn text.now first.now second.now budget a.status a.text.items) }
{
    accepted_is_ready();
    match accept(alloc, text) {
        Ok(checked) => compared(alloc, &checked, first, second, budget),
        Err(FrontFault::Refused(refusal)) => Ok(Answer {
            status: Status::Refused,
            text: refusal_text(alloc, &refusal)?,
        }),
        Err(FrontFault::Memory) => Err(Memory),
    }
}

/// What is due for two terms of the specification in a file: whether they are equal, each with at most `budget` uses of equations, from 1
/// to 2^32; or why that isn't known; or the specification's first refusal.
#[tactic(auto, using(crate::proofs::Equals::compared_due, crate::proofs::Fetches::asked_first))]
pub fn equal<F: Shelf>(
    alloc: Global,
    shelf: &mut F,
    specification: &str,
    first: &str,
    second: &str,
    budget: u64,
) -> Result<Answer, Memory>
    ensures due { IfOk result (λ a. IsEqualDue (shelved (F.files shelf.old) (F.failed shelf.old) (F.failed shelf.new)) specification.now
        first.now second.now budget a.status a.text.items) }
    ensures asked { IsAskedFor F.fetches (specification.now ∷ []) shelf.old shelf.new }
{
    match fetch(alloc, shelf, specification, 4_194_305) {
        Err(ShelfFault::Failed) => with_text(alloc, Status::ReadFault, b"read fault\n"),
        Err(ShelfFault::Memory) => Err(Memory),
        Ok(bytes) => compared_in(alloc, &bytes, first, second, budget),
    }
}
