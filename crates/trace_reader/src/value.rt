// Values, and terms.

ghost use Rattle.std.specs.Prelude.{◌≡◌, ◌≤◌, IfOk, IsSome, OnOk};
ghost use Rattle.spec_core.specs.Sorts.{FitsGround};
ghost use Rattle.spec_core.specs.Terms.{term_of};
ghost use Rattle.trace_text.specs.Names.{names_with};
ghost use Rattle.value_text.specs.Values.{IsGroundList, value_text};
ghost use Rattle.value_text.specs.Vocabularies.{theory_in};
ghost use Rattle.trace_reader.specs.Cursors.{EndsValue, Finds, IsReadable, size};

use crate::cursor::Cursor;
use spec_core::memory::Memory;
use spec_core::term::Term;
use spec_core::value::Value;
use std::alloc::Global;
use value_terms::term_with;
use value_text::vocabulary::Vocabulary;

/// A value.
pub fn read_value(
    alloc: Global,
    vocabulary: &Vocabulary,
    cursor: &mut Cursor,
) -> Result<Value, Memory>
    requires readable { IsReadable vocabulary.now }
    ensures finds { IfOk result (λ value. Finds (value_text (theory_in vocabulary.now)) (IsGroundList (theory_in vocabulary.now)) EndsValue
        cursor.old cursor.new (λ v. value ≡ v)) }
    ensures fits { IfOk result (λ value. IsSome cursor.new → IsGroundList (theory_in vocabulary.now) value) }
    ensures kept { OnOk result (IsSome cursor.new → IsSome cursor.old) }
    ensures fewer { OnOk result (size cursor.new ≤ size cursor.old) }
{
    match cursor.rest() {
        None => Ok(Value::new(Vec::new(alloc))),
        Some(text) => match value_reader::read_value(alloc, vocabulary, text)? {
            None => {
                cursor.lose();
                Ok(Value::new(Vec::new(alloc)))
            }
            Some((value, rest)) => {
                cursor.stand(rest);
                Ok(value)
            }
        },
    }
}

/// How deep round brackets are nested in a text.
pub fn nesting(text: &[u8]) -> usize {
    let mut depth: usize = 0;
    let mut deepest: usize = 0;
    for byte in text {
        match *byte {
            b'(' => depth = depth.saturating_add(1),
            b')' => depth = depth.saturating_sub(1),
            _ => {}
        }
        deepest = deepest.max(depth);
    }
    deepest
}

// Whether what is left is nested too deep for a function that recurs in it.
fn is_deep(cursor: &Cursor) -> bool {
    match cursor.rest() {
        None => false,
        Some(text) => nesting(text) > DEEPEST,
    }
}

/// How deep a term or a tree may be nested: half as deep again as a part may spread. What is deeper isn't read for want of memory, since the
/// functions that go over it recur.
pub const DEEPEST: usize = 98_304;

/// How deep brackets may be nested in a line, those of its values included: a value of 65,536 symbols may stand in the deepest tree.
pub const DEEPEST_LINE: usize = 163_840;

/// A ground term.
pub fn read_term(
    alloc: Global,
    vocabulary: &Vocabulary,
    cursor: &mut Cursor,
) -> Result<Term, Memory>
    requires readable { IsReadable vocabulary.now }
    ensures finds { IfOk result (λ term. Finds (names_with vocabulary.now).term (FitsGround (theory_in vocabulary.now)) EndsValue
        cursor.old cursor.new (λ t. term_of term ≡ t)) }
    ensures fits { IfOk result (λ term. IsSome cursor.new → FitsGround (theory_in vocabulary.now) (term_of term)) }
    ensures kept { OnOk result (IsSome cursor.new → IsSome cursor.old) }
{
    if is_deep(cursor) {
        return Err(Memory);
    }
    let value = read_value(alloc, vocabulary, cursor)?;
    match term_with(alloc, &vocabulary.checked.algebra, value.as_slice())? {
        None => {
            cursor.lose();
            Ok(Term::Var(0))
        }
        Some(term) => Ok(term),
    }
}
