// A reader as a source.

ghost use Rattle.std.specs.Prelude.{◌≡◌};

use crate::source::{Source, SourceFault};
use std::io::Read;
use std::marker::Model;

/// A reader, as standard input. It tells no content, and counts each failure.
///
/// A contract sees it as the count of its faults.
#[derive(Drop)]
pub struct StreamSource<R> {
    reader: R,
    faults: u64,
}

impl<R> Model for StreamSource<R> {
    ghost use Rattle.std.specs.Prelude.{ℕ};

    ghost Value = { ℕ };

    ghost view = { λ source. source.faults };
}

impl<R> StreamSource<R> {
    /// What this reader reads. It takes no memory.
    pub fn new(reader: R) -> StreamSource<R>
        ensures { result ≡ 0 }
    {
        StreamSource { reader, faults: 0 }
    }
}

impl<R: Read> Source for StreamSource<R> {
    ghost use Rattle.std.specs.Prelude.{None};

    ghost rest = { λ _. None };

    ghost faults = { λ faults. faults };

    fn read(&mut self, piece: &mut [u8]) -> Result<usize, SourceFault> {
        match self.reader.read(piece) {
            Ok(count) => Ok(count),
            Err(_) => {
                self.faults = self.faults.saturating_add(1);
                Err(SourceFault::Failed)
            }
        }
    }
}
