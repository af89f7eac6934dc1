// A shelf in memory.

ghost use Rattle.std.specs.Prelude.{◌≡◌, ◌⊎◌, [], ◌∷◌, ◌++◌, take, Contains, option_map, IsSomeAnd, OnOk, OnErr, IsErrOf};
ghost use Rattle.std.specs.Io.{StartsWith};
ghost use Rattle.lotos_outside.specs.Counts.{next_count};
ghost use Rattle.lotos_outside.specs.Shelf.{files_of, first_file};

use crate::shelf::{Shelf, ShelfFault, note};
use std::marker::Model;

/// A shelf in memory, which fails at the calls that it was told to fail at, and where it has no file of the name.
#[derive(Drop)]
pub struct MemoryShelf {
    files: Vec<(String, Vec<u8>)>,
    fails: Vec<u64>,
    calls: u64,
    failed: Vec<String>,
}

impl Model for MemoryShelf {
    ghost use Rattle.std.specs.Prelude.{map, string_bytes};
    ghost use Rattle.lotos_outside.specs.Shelf.{ShelfState, files_of};

    ghost Value = { ShelfState };

    ghost view = { λ s. record {
      files = files_of s.files.items;
      fails = s.fails.items;
      calls = s.calls;
      failed = map string_bytes s.failed.items;
    } };
}

impl MemoryShelf {
    /// A shelf with these files, each a name and its bytes, which fails at the calls with these numbers, counted from 1.
    ///
    /// Of two files with one name the first counts.
    pub fn new(files: Vec<(String, Vec<u8>)>, fails: Vec<u64>) -> MemoryShelf
        ensures { result ≡ record { files = files_of files.items; fails = fails.items; calls = 0; failed = [] } }
    {
        let failed = Vec::new(*files.allocator());
        MemoryShelf {
            files,
            fails,
            calls: 0,
            failed,
        }
    }
}

// The bytes of the first file with this name.
fn find<'a>(files: &'a [(String, Vec<u8>)], name: &str) -> Option<&'a Vec<u8>>
    ensures { option_map (λ v. v.now.items) result ≡ first_file (files_of files.now) name.now }
{
    match files {
        [] => None,
        [file, rest @ ..] => {
            if file.0.as_str() == name {
                Some(&file.1)
            } else {
                find(rest, name)
            }
        }
    }
}

impl Shelf for MemoryShelf {
    ghost use Rattle.std.specs.Prelude.{Some};
    ghost use Rattle.lotos_outside.specs.Shelf.{first_file, IsFetchedInMemory};

    ghost files = { λ shelf. Some (first_file shelf.files) };

    ghost failed = { λ shelf. shelf.failed };

    ghost fetches = { IsFetchedInMemory };

    fn fetch(&mut self, name: &str, most: usize, into: &mut Vec<u8>) -> Result<(), ShelfFault>
        ensures ok { OnOk result (IsSomeAnd (first_file self.old.files name.now)
            (λ text. into.new.items ≡ into.old.items ++ take most text)) }
        ensures appends { StartsWith into.new.items into.old.items }
        ensures err { OnErr result (into.new.items ≡ into.old.items) }

        // It fails at the calls that it was told to fail at, and where it has no file of the name.
        ensures ok_only { OnOk result (¬ Contains self.old.fails (next_count self.old.calls)) }
        ensures failed_only { IsErrOf result ShelfFault.Failed →
            Contains self.old.fails (next_count self.old.calls) ⊎ (first_file self.old.files name.now ≡ None) }

        ensures ok_state { OnOk result (self.new ≡ record self.old { calls = next_count self.old.calls }) }
        ensures failed_state { IsErrOf result ShelfFault.Failed →
            self.new ≡ record self.old { calls = next_count self.old.calls; failed = self.old.failed ++ name.now ∷ [] } }
        ensures memory_state { IsErrOf result ShelfFault.Memory → self.new ≡ record self.old { calls = next_count self.old.calls } }
    {
        self.calls = self.calls.saturating_add(1);
        let found = if self.fails.contains(&self.calls) {
            None
        } else {
            find(&self.files, name)
        };
        let Some(bytes) = found else {
            note(&mut self.failed, name)?;
            return Err(ShelfFault::Failed);
        };
        let count = bytes.len().min(most);
        into.extend_from_slice(&bytes[..count])?;
        Ok(())
    }
}
