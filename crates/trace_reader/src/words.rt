// Words that say what follows them.

ghost use Rattle.std.specs.Prelude.{◌≡◌, IsSome};
ghost use Rattle.trace_reader.specs.Words.{TakesFirst, first_word};

use crate::cursor::Cursor;

/// What stands behind a word of its own.
pub trait Worded: Copy {
    ghost use Rattle.std.specs.Prelude.{ℕ, List};

    ghost text: { Self → List ℕ };

    /// The word.
    fn word(self) -> &'static str
        ensures { result.now ≡ text self };
}

/// Takes the first of these words that is next, if one is.
pub fn take_first<W: Worded>(cursor: &mut Cursor, all: &[W]) -> Option<W>
    ensures takes { TakesFirst (first_word W.text all.now cursor.old) cursor.old result cursor.new }
    ensures kept { IsSome cursor.new → IsSome cursor.old }
{
    match all {
        [] => None,
        [first, others @ ..] => {
            if cursor.takes(first.word().as_bytes()) {
                Some(*first)
            } else {
                take_first(cursor, others)
            }
        }
    }
}
