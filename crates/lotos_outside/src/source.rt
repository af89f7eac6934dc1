// Where bytes are read.

ghost use Rattle.std.specs.Prelude.{◌≡◌, ◌<◌, ◌≤◌, [], ℕ, List, Option, Ok, IfOk, IfSome, OnErr, length, take};
ghost use Rattle.lotos_outside.specs.Counts.{Rose};
ghost use Rattle.lotos_outside.specs.Source.{with_first};

use thiserror::Error;

/// Why a read gave nothing.
#[derive(Clone, Copy, Debug, PartialEq, Eq, Error)]
pub enum SourceFault {
    /// The source couldn't be read.
    #[error("the input could not be read")]
    Failed,
}

/// A source of bytes. It may tell what it has left or not; it counts its faults.
pub trait Source {
    // The bytes that are left, where the source tells them.
    ghost rest: { Self → Option (List ℕ) };

    // How many faults there were; counting ends at 2^64 - 1.
    ghost faults: { Self → ℕ };

    /// Reads bytes into the beginning of `piece`, and answers how many. It takes no memory.
    ///
    /// None for a piece that isn't empty is the end. After an error nothing is said of what `piece` holds.
    fn read(&mut self, piece: &mut [u8]) -> Result<usize, SourceFault>
        ensures within { IfOk result (λ count. count ≤ length piece.old) }
        ensures ok { IfOk result (λ count. rest self.old ≡ with_first (take count piece.new) (rest self.new)) }
        ensures end { result ≡ Ok 0 → 0 < length piece.old → IfSome (rest self.old) (λ left. left ≡ []) }
        ensures err { OnErr result (rest self.new ≡ rest self.old) }
        ensures failed { OnErr result (Rose (faults self.old) (faults self.new)) }
        ensures never_fewer { faults self.old ≤ faults self.new };
}
