// The files of the file system as a shelf.

ghost use Rattle.std.specs.Prelude.{◌≡◌, []};
ghost use Rattle.std.specs.Io.{StartsWith};

use crate::shelf::{Shelf, ShelfFault, note};
use std::io::{ErrorKind, Read};
use std::marker::Model;
use std::rt::Files;
use std::{fs, io};

/// The files of the file system, by their paths. It tells no content, and notes the path at each failure.
///
/// A contract sees it as the list of the paths that failed.
#[derive(Drop)]
pub struct FileShelf<'a, R> {
    rt: &'a R,
    failed: Vec<String>,
}

impl<'a, R> Model for FileShelf<'a, R> {
    ghost use Rattle.std.specs.Prelude.{ℕ, List, map, string_bytes};

    ghost Value = { List (List ℕ) };

    ghost view = { λ shelf. map string_bytes shelf.failed.items };
}

impl<'a, R: Files + AllocGlobal> FileShelf<'a, R> {
    /// The files that this runtime reaches. It takes no memory.
    pub fn new(rt: &'a R) -> FileShelf<'a, R>
        ensures { result ≡ [] }
    {
        FileShelf {
            rt,
            failed: Vec::new(rt.alloc()),
        }
    }
}

impl<'a, R: Files> Shelf for FileShelf<'a, R> {
    ghost use Rattle.std.specs.Prelude.{None};
    ghost use Rattle.lotos_outside.specs.Shelf.{NotesAtMost};

    ghost files = { λ _. None };

    ghost failed = { λ failed. failed };

    ghost fetches = { λ before name after. NotesAtMost before after name };

    fn fetch(&mut self, name: &str, most: usize, into: &mut Vec<u8>) -> Result<(), ShelfFault> {
        let length = into.len();
        let Err(error) = append_file(self.rt, name, most as u64, into) else {
            return Ok(());
        };
        into.truncate(length);
        if error.kind() == ErrorKind::OutOfMemory {
            return Err(ShelfFault::Memory);
        }
        note(&mut self.failed, name)?;
        Err(ShelfFault::Failed)
    }
}

// Appends the first `most` bytes of the file with this path. After an error some of them may have been appended.
fn append_file<R: Files>(rt: &R, path: &str, most: u64, into: &mut Vec<u8>) -> io::Result<()>
    ensures { StartsWith into.new.items into.old.items }
{
    fs::open(rt, path)?.take(most).read_to_end(into)?;
    Ok(())
}
