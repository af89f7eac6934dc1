// Actions, and the offers that they take.

ghost use Rattle.std.specs.Prelude.{◌≡◌, ◌<◌, List, ℕ, IfOk, IfSome, IsSome, None, OnOk, Some};
ghost use Rattle.spec_core.specs.Code.{program_of};
ghost use Rattle.spec_core.specs.Lists.{Each};
ghost use Rattle.trace_text.specs.Fits.{ActionFits, ByFits};
ghost use Rattle.trace_text.specs.Names.{names_with};
ghost use Rattle.trace_text.specs.Trace.{action_text, by_text, values_text};
ghost use Rattle.value_text.specs.Values.{IsGroundList};
ghost use Rattle.value_text.specs.Vocabularies.{theory_in};
ghost use Rattle.trace_reader.specs.Cursors.{EndsBy, EndsFields, EndsValue, Finds, IsReadable, given_text, size};

use crate::cursor::Cursor;
use crate::named::read_named;
use crate::number::read_name;
use crate::value::read_value;
use rule_model::action::{Action, Values};
use spec_core::items::Gate;
use spec_core::memory::Memory;
use spec_core::value::Value;
use std::alloc::Global;
use value_text::vocabulary::Vocabulary;

// A further value of an action, if there is one.
fn next_value(
    alloc: Global,
    vocabulary: &Vocabulary,
    cursor: &mut Cursor,
) -> Result<Option<Value>, Memory>
    requires readable { IsReadable vocabulary.now }
    ensures finds { IfOk result (λ found. Finds (given_text (names_with vocabulary.now)) (IsGroundList (theory_in vocabulary.now))
        EndsValue cursor.old cursor.new (λ value. found ≡ Some value)) }
    ensures stops { IfOk result (λ found. (rest : List ℕ) → EndsFields rest → cursor.old ≡ Some rest →
        (found ≡ None) × (cursor.new ≡ Some rest)) }
    ensures fits { IfOk result (λ found. IsSome cursor.new → IfSome found (IsGroundList (theory_in vocabulary.now))) }
    ensures kept { OnOk result (IsSome cursor.new → IsSome cursor.old) }
    ensures fewer { IfOk result (λ found. IsSome found → size cursor.new < size cursor.old) }
{
    if cursor.takes(b" !") {
        let value = read_value(alloc, vocabulary, cursor)?;
        Ok(Some(value))
    } else {
        Ok(None)
    }
}

// The values of an action.
fn read_values(
    alloc: Global,
    vocabulary: &Vocabulary,
    cursor: &mut Cursor,
) -> Result<Vec<Value>, Memory>
    requires readable { IsReadable vocabulary.now }
    ensures finds { IfOk result (λ values. Finds (values_text (names_with vocabulary.now))
        (Each (IsGroundList (theory_in vocabulary.now))) EndsFields cursor.old cursor.new (λ all. values.items ≡ all)) }
    ensures fits { IfOk result (λ values. IsSome cursor.new → Each (IsGroundList (theory_in vocabulary.now)) values.items) }
    ensures kept { OnOk result (IsSome cursor.new → IsSome cursor.old) }
{
    let mut values = Vec::new(alloc);
    'values: while let Some(value) = next_value(alloc, vocabulary, cursor)? {
        values.push(value)?;
    }
    Ok(values)
}

/// An action.
pub fn read_action(
    alloc: Global,
    vocabulary: &Vocabulary,
    cursor: &mut Cursor,
) -> Result<Action, Memory>
    requires readable { IsReadable vocabulary.now }
    ensures finds { IfOk result (λ action. Finds (action_text (names_with vocabulary.now))
        (ActionFits (program_of vocabulary.now.checked.now))
        EndsFields cursor.old cursor.new (λ it. action ≡ it)) }
    ensures fits { IfOk result (λ action. IsSome cursor.new → ActionFits (program_of vocabulary.now.checked.now) action) }
    ensures kept { OnOk result (IsSome cursor.new → IsSome cursor.old) }
{
    if cursor.takes_name(b"i") {
        Ok(Action::Inner)
    } else if cursor.takes_name(b"exit") {
        let values = read_values(alloc, vocabulary, cursor)?;
        Ok(Action::Exit(Values::new(values)))
    } else {
        let gate = read_named(cursor, &vocabulary.checked.gates)?;
        let values = read_values(alloc, vocabulary, cursor)?;
        Ok(Action::At(Gate(gate), Values::new(values)))
    }
}

/// The offer that an action takes, if it takes one.
pub fn read_by(cursor: &mut Cursor) -> Option<(u32, u64)>
    ensures finds { Finds by_text ByFits EndsBy cursor.old cursor.new (λ by. result ≡ by) }
    ensures fits { IsSome cursor.new → ByFits result }
    ensures kept { IsSome cursor.new → IsSome cursor.old }
{
    if cursor.takes(b" by ") {
        Some(read_name(cursor))
    } else {
        None
    }
}
