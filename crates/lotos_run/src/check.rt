// The command `check`.

ghost use Rattle.std.specs.Prelude.{◌∷◌, [], IfOk};
ghost use Rattle.lotos_run.specs.Checks.{IsCheckDue, IsJudged};
ghost use Rattle.lotos_run.specs.Fetches.{IsAskedFor};
ghost use Rattle.lotos_run.specs.Outside.{shelved};

use crate::answer::{Answer, fetch, with_text};
use crate::check_text::{accepted_text, refusal_text};
use crate::status::Status;
use lotos_ast::refusal::FrontFault;
use lotos_front::accept;
use lotos_outside::shelf::{Shelf, ShelfFault};
use spec_core::memory::Memory;
use std::alloc::Global;

// What is due for a text.
fn judged(alloc: Global, text: &[u8]) -> Result<Answer, Memory>
    ensures { IfOk result (λ a. IsJudged text.now a.status a.text.items) }
{
    match accept(alloc, text) {
        Ok(checked) => Ok(Answer {
            status: Status::Done,
            text: accepted_text(alloc, &checked)?,
        }),
        Err(FrontFault::Refused(refusal)) => Ok(Answer {
            status: Status::Refused,
            text: refusal_text(alloc, &refusal)?,
        }),
        Err(FrontFault::Memory) => Err(Memory),
    }
}

/// What is due for the specification in a file: whether it is accepted, and what it has, or its first refusal.
#[tactic(auto, using(crate::proofs::Fetches::asked_first))]
pub fn check<F: Shelf>(alloc: Global, shelf: &mut F, specification: &str) -> Result<Answer, Memory>
    ensures due { IfOk result (λ a. IsCheckDue (shelved (F.files shelf.old) (F.failed shelf.old) (F.failed shelf.new)) specification.now
        a.status a.text.items) }
    ensures asked { IsAskedFor F.fetches (specification.now ∷ []) shelf.old shelf.new }
{
    match fetch(alloc, shelf, specification, 4_194_305) {
        Err(ShelfFault::Failed) => with_text(alloc, Status::ReadFault, b"read fault\n"),
        Err(ShelfFault::Memory) => Err(Memory),
        Ok(bytes) => judged(alloc, &bytes),
    }
}
