// What is due, and where it comes from.

ghost use Rattle.std.specs.Prelude.{◌≡◌, IfOk, OnOk, IsErrOf, take};
ghost use Rattle.lotos_outside.specs.Shelf.{OnFetched, Notes};

use crate::status::Status;
use lotos_outside::shelf::{Shelf, ShelfFault};
use spec_core::memory::Memory;
use std::alloc::Global;

/// A status, and the text that is due with it.
#[derive(Drop)]
pub struct Answer {
    pub status: Status,
    pub text: Vec<u8>,
}

/// This status with this text.
pub fn with_text(alloc: Global, status: Status, text: &[u8]) -> Result<Answer, Memory>
    ensures status { IfOk result (λ a. a.status ≡ status) }
    ensures text { IfOk result (λ a. a.text.items ≡ text.now) }
{
    let text = Vec::from_slice(alloc, text)?;
    Ok(Answer { status, text })
}

/// The first bytes of the file of this name.
pub fn fetch<F: Shelf>(
    alloc: Global,
    shelf: &mut F,
    name: &str,
    most: usize,
) -> Result<Vec<u8>, ShelfFault>
    ensures ok { IfOk result (λ bytes. OnFetched (F.files shelf.old) name.now (λ text. bytes.items ≡ take most text)) }
    ensures failed { IsErrOf result ShelfFault.Failed → Notes (F.failed shelf.old) (F.failed shelf.new) name.now }
    ensures ok_notes_nothing { OnOk result (F.failed shelf.new ≡ F.failed shelf.old) }
    ensures same_files { F.files shelf.new ≡ F.files shelf.old }
    ensures step { F.fetches shelf.old name.now shelf.new }
{
    let mut bytes = Vec::new(alloc);
    shelf.fetch(name, most, &mut bytes)?;
    Ok(bytes)
}
