// What a value behind the lock is to a contract.

ghost use Rattle.std.specs.Prelude.{◌≡◌, ℕ, List, length, Option};

/// A value that holds a list of entries, which grows from turn to turn, and a part that stays as it is.
pub trait Standing {
    /// An entry of the list.
    type Entry;

    /// The part that stays.
    type Fixed;

    /// The value's list.
    ghost list: { Self → List Self.Entry };

    /// The value's fixed part.
    ghost fixed: { Self → Self.Fixed };

    /// The number of the seat that made an entry, or none.
    ghost maker: { Self.Entry → Option ℕ };

    /// The length of the list. It takes no memory.
    fn length(&self) -> u64
        ensures { result ≡ length (list self.now) };
}
