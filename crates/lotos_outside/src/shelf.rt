// Where files are fetched.

ghost use Rattle.std.specs.Prelude.{◌≡◌, ◌++◌, ℕ, List, Option, OnOk, OnErr, IsErrOf, map, string_bytes, take};
ghost use Rattle.std.specs.Io.{StartsWith};
ghost use Rattle.lotos_outside.specs.Shelf.{Notes, OnFetched};

use spec_core::memory::Memory;
use std::alloc::{AllocError, AllocFailed};
use thiserror::Error;

/// Why a fetch gave nothing.
#[derive(Clone, Copy, Debug, PartialEq, Eq, Error)]
pub enum ShelfFault {
    /// The shelf has no file of this name, or it couldn't be opened or read.
    #[error("the file could not be read")]
    Failed,
    /// Want of memory.
    #[error("out of memory")]
    Memory,
}

impl From<Memory> for ShelfFault {
    ghost use Rattle.std.specs.Prelude.{◌≡◌};
    ghost use Rattle.lotos_outside.specs.declared.shelf.ShelfFault.TheVariants.{Memory};

    ghost from_gives = { λ _ fault. fault ≡ Memory };

    fn from(_: Memory) -> ShelfFault {
        ShelfFault::Memory
    }
}

impl From<AllocError> for ShelfFault {
    ghost use Rattle.std.specs.Prelude.{◌≡◌};
    ghost use Rattle.lotos_outside.specs.declared.shelf.ShelfFault.TheVariants.{Memory};

    ghost from_gives = { λ _ fault. fault ≡ Memory };

    fn from(_: AllocError) -> ShelfFault {
        ShelfFault::Memory
    }
}

impl<T: Drop> From<AllocFailed<T>> for ShelfFault {
    ghost use Rattle.std.specs.Prelude.{◌≡◌};
    ghost use Rattle.lotos_outside.specs.declared.shelf.ShelfFault.TheVariants.{Memory};

    ghost from_gives = { λ _ fault. fault ≡ Memory };

    fn from(_: AllocFailed<T>) -> ShelfFault {
        ShelfFault::Memory
    }
}

/// Files by their names. A shelf may tell its files or not; it lists the names whose fetch failed.
pub trait Shelf {
    // The text of each file by its name, where the shelf tells it.
    ghost files: { Self → Option (List ℕ → Option (List ℕ)) };

    // The names whose fetch failed, in order.
    ghost failed: { Self → List (List ℕ) };

    // What a fetch of this name may make of the shelf, whatever it answers.
    ghost fetches: { Self → List ℕ → Self → Type 0 };

    /// Appends the first `most` bytes of the file with this name to `into`, or all of them where there are fewer.
    ///
    /// After an error `into` is as it was. `Memory` may come at any call.
    fn fetch(&mut self, name: &str, most: usize, into: &mut Vec<u8>) -> Result<(), ShelfFault>
        ensures ok { OnOk result (OnFetched (files self.old) name.now (λ text. into.new.items ≡ into.old.items ++ take most text)) }
        ensures appends { StartsWith into.new.items into.old.items }
        ensures err { OnErr result (into.new.items ≡ into.old.items) }

        // A fault is noted under just this name, and nothing else is ever noted.
        ensures failed { IsErrOf result ShelfFault.Failed → Notes (failed self.old) (failed self.new) name.now }
        ensures ok_notes_nothing { OnOk result (failed self.new ≡ failed self.old) }
        ensures memory_notes_nothing { IsErrOf result ShelfFault.Memory → failed self.new ≡ failed self.old }
        ensures same_files { files self.new ≡ files self.old }

        // Nothing else is done to the shelf.
        ensures step { fetches self.old name.now self.new };
}

// Adds a name behind those that failed.
pub(crate) fn note(failed: &mut Vec<String>, name: &str) -> Result<(), AllocError>
    ensures ok { OnOk result (Notes (map string_bytes failed.old.items) (map string_bytes failed.new.items) name.now) }
    ensures err { OnErr result (failed.new.items ≡ failed.old.items) }
{
    let name = String::from_str(*failed.allocator(), name)?;
    failed.push(name)?;
    Ok(())
}
