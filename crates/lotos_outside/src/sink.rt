// Where bytes are written.

ghost use Rattle.std.specs.Prelude.{◌≡◌, ◌<◌, ◌≤◌, ℕ, List, Option, Ok, IfOk, OnOk, OnErr, IsErrOf, length, take};
ghost use Rattle.lotos_outside.specs.Counts.{Rose};
ghost use Rattle.lotos_outside.specs.Sink.{with_more, AppendsPrefix};

use spec_core::memory::Memory;
use std::alloc::{AllocError, AllocFailed};
use thiserror::Error;

/// Why a write wrote nothing.
#[derive(Clone, Copy, Debug, PartialEq, Eq, Error)]
pub enum SinkFault {
    /// The sink couldn't be written to.
    #[error("the output could not be written")]
    Failed,
    /// Want of memory.
    #[error("out of memory")]
    Memory,
}

impl From<Memory> for SinkFault {
    ghost use Rattle.std.specs.Prelude.{◌≡◌};
    ghost use Rattle.lotos_outside.specs.declared.sink.SinkFault.TheVariants.{Memory};

    ghost from_gives = { λ _ fault. fault ≡ Memory };

    fn from(_: Memory) -> SinkFault {
        SinkFault::Memory
    }
}

impl From<AllocError> for SinkFault {
    ghost use Rattle.std.specs.Prelude.{◌≡◌};
    ghost use Rattle.lotos_outside.specs.declared.sink.SinkFault.TheVariants.{Memory};

    ghost from_gives = { λ _ fault. fault ≡ Memory };

    fn from(_: AllocError) -> SinkFault {
        SinkFault::Memory
    }
}

impl<T: Drop> From<AllocFailed<T>> for SinkFault {
    ghost use Rattle.std.specs.Prelude.{◌≡◌};
    ghost use Rattle.lotos_outside.specs.declared.sink.SinkFault.TheVariants.{Memory};

    ghost from_gives = { λ _ fault. fault ≡ Memory };

    fn from(_: AllocFailed<T>) -> SinkFault {
        SinkFault::Memory
    }
}

/// A sink for bytes. It may tell what it has taken or not; it counts its faults.
pub trait Sink {
    // The bytes that were written, where the sink tells them.
    ghost written: { Self → Option (List ℕ) };

    // How many faults there were; counting ends at 2^64 - 1.
    ghost faults: { Self → ℕ };

    /// Writes a prefix of `piece`, and answers how many bytes long it is.
    ///
    /// None for a piece that isn't empty is a fault. After an error nothing was written. `Memory` may come at any call.
    fn write(&mut self, piece: &[u8]) -> Result<usize, SinkFault>
        ensures within { IfOk result (λ count. count ≤ length piece.now) }
        ensures ok { IfOk result (λ count. written self.new ≡ with_more (take count piece.now) (written self.old)) }
        ensures err { OnErr result (written self.new ≡ written self.old) }
        ensures failed { IsErrOf result SinkFault.Failed → Rose (faults self.old) (faults self.new) }
        ensures stuck { result ≡ Ok 0 → 0 < length piece.now → Rose (faults self.old) (faults self.new) }
        ensures never_fewer { faults self.old ≤ faults self.new };
}

/// Writes all the bytes, in as many calls as the sink needs.
///
/// After an error a prefix of them was written. A sink that takes none of a piece that isn't empty makes it fail.
pub fn write_all<K: Sink>(sink: &mut K, bytes: &[u8]) -> Result<(), SinkFault>
    ensures ok { OnOk result (K.written sink.new ≡ with_more bytes.now (K.written sink.old)) }
    ensures prefix { AppendsPrefix bytes.now (K.written sink.old) (K.written sink.new) }
    ensures failed { IsErrOf result SinkFault.Failed → Rose (K.faults sink.old) (K.faults sink.new) }
    ensures never_fewer { K.faults sink.old ≤ K.faults sink.new }
{
    let mut done = 0;
    while done < bytes.len() {
        let count = sink.write(&bytes[done..])?;
        if count == 0 {
            return Err(SinkFault::Failed);
        }
        done += count;
    }
    Ok(())
}
