// Values read from a text.

ghost use Rattle.std.specs.Prelude.{ℕ, ◌≡◌, ◌++◌, List, IfOk, IfSome, IfNone, Some, None, true, length, map, MatchOption, string_bytes};
ghost use Rattle.spec_core.specs.Code.{program_of};
ghost use Rattle.spec_core.specs.Numbers.{op_number};
ghost use Rattle.spec_core.specs.Ready.{AreNamed};
ghost use Rattle.spec_core.specs.Sorts.{FitsData};
ghost use Rattle.spec_core.specs.Theories.{theory_of};
ghost use Rattle.value_text.specs.Values.{IsGroundList, value_text};
ghost use Rattle.value_text.specs.Vocabularies.{IsWhole, theory_in};
ghost use Rattle.value_reader.specs.Ends.{ends_there, ends_value, goes_no_further};
ghost use Rattle.value_reader.specs.Extents.{extent, start};
ghost use Rattle.value_reader.specs.Items.{items};
ghost use Rattle.value_reader.specs.Stands.{read_in, whole_value};
ghost use Rattle.value_reader.specs.Views.{state_of};

use crate::extent::term_pieces;
use crate::piece::{Piece, is_among, next_item};
use crate::reading::{Reading, Stand, read_all};
use spec_core::equation::DataSpec;
use spec_core::memory::Memory;
use spec_core::value::Value;
use std::alloc::Global;
use value_text::value::put_value;
use value_text::vocabulary::Vocabulary;

/// Whether a name may end before this text: it is empty, or its first byte is LF, a blank, `)`, `,` or `]`. It takes no memory.
pub fn ends_there(text: &[u8]) -> bool
    ensures { result ≡ ends_there text.now }
{
    match text {
        [] => true,
        [first, ..] => is_among(*first, b"\n ),]"),
    }
}

// Whether neither arguments nor a sort follow.
fn goes_no_further(text: &[u8]) -> bool
    ensures { result ≡ goes_no_further (items text.now) }
{
    match next_item(text) {
        None => true,
        Some((piece, _)) => match piece {
            Piece::Word(_) => true,
            Piece::Opening => false,
            Piece::Closing => true,
            Piece::Comma => true,
            Piece::OfSort(_) => false,
            Piece::Other => true,
        },
    }
}

// Whether a value may end before this text.
fn ends_value(text: &[u8]) -> bool
    ensures { result ≡ ends_value text.now }
{
    ends_there(text) && goes_no_further(text)
}

// The value that was read, where it is one whole term.
fn whole(reading: Reading) -> Option<Value>
    ensures { whole_value (state_of reading.entry) ≡ result }
{
    match reading.stand {
        Stand::Expects(_) => None,
        Stand::HasTerm => {
            if reading.brackets.is_empty() && reading.sorts.len() == 1 {
                let mut ops = reading.ops;
                ops.reverse();
                Some(Value::new(ops))
            } else {
                None
            }
        }
        Stand::Calls(_, _) => None,
    }
}

// The one value whose text, with what may follow it, this text is, if there is one; it isn't compared with the text.
fn candidate(alloc: Global, algebra: &DataSpec, text: &[u8]) -> Result<Option<Value>, Memory>
    ensures ground { IfOk result (λ found. IfSome found (IsGroundList (theory_of algebra.now))) }
    ensures read { IfOk result (λ found. found ≡ read_in (theory_of algebra.now) text.now) }
{
    let pieces = term_pieces(alloc, text)?;
    match read_all(alloc, algebra, pieces)? {
        None => Ok(None),
        Some(reading) => Ok(whole(reading)),
    }
}

/// The value with which a text begins, and what is behind it, where a value may end there.
///
/// The text of the value is that which is printed, byte by byte. It doesn't recur.
pub fn read_value<'a>(
    alloc: Global,
    vocabulary: &Vocabulary,
    text: &'a [u8],
) -> Result<Option<(Value, &'a [u8])>, Memory>
    requires whole { IsWhole vocabulary.now }
    requires fits { FitsData (theory_in vocabulary.now) }
    requires named { AreNamed (program_of vocabulary.now.checked.now) }
    ensures ground { IfOk result (λ found. IfSome found (λ r. IsGroundList (theory_in vocabulary.now) r.0)) }
    ensures spelled { IfOk result (λ found. IfSome found (λ r. text.now ≡ value_text (theory_in vocabulary.now) r.0 ++ r.1.now)) }
    ensures ends { IfOk result (λ found. IfSome found (λ r. ends_value r.1.now ≡ true)) }
    ensures only { IfOk result (λ found. IfSome found (λ r. (value rest : List ℕ) → IsGroundList (theory_in vocabulary.now) value →
        ends_value rest ≡ true → text.now ≡ value_text (theory_in vocabulary.now) value ++ rest → (value ≡ r.0) × (rest ≡ r.1.now))) }
    ensures none { IfOk result (λ found. IfNone found ((value rest : List ℕ) → IsGroundList (theory_in vocabulary.now) value →
        ends_value rest ≡ true → text.now ≡ value_text (theory_in vocabulary.now) value ++ rest → ⊥)) }
{
    match candidate(alloc, &vocabulary.checked.algebra, text)? {
        None => Ok(None),
        Some(value) => {
            let mut printed = String::new(alloc);
            put_value(&mut printed, vocabulary, &value)?;
            match text.strip_prefix(printed.as_str().as_bytes()) {
                None => Ok(None),
                Some(rest) => {
                    if ends_value(rest) {
                        Ok(Some((value, rest)))
                    } else {
                        Ok(None)
                    }
                }
            }
        }
    }
}
