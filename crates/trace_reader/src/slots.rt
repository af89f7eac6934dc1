// The values of trees of rules.

ghost use Rattle.std.specs.Prelude.{◌≡◌, ◌<◌, ◌≤◌, ◌∷◌, ◌++◌, List, ℕ, IfOk, IfSome, IsSome, None, OnOk, Some, codes};
ghost use Rattle.spec_core.specs.Code.{program_of};
ghost use Rattle.spec_core.specs.Lists.{Each};
ghost use Rattle.rule_model.specs.declared.rules.Slot.{Slot};
ghost use Rattle.trace_text.specs.Fits.{SlotFits};
ghost use Rattle.trace_text.specs.Names.{names_with};
ghost use Rattle.trace_text.specs.Trace.{slot_text, slots_text};
ghost use Rattle.trace_reader.specs.Cursors.{EndsSlots, EndsTree, EndsValue, Finds, IsReadable, further_text, further_texts, size};

use crate::cursor::Cursor;
use crate::value::read_value;
use rule_model::rules::Slot;
use spec_core::memory::Memory;
use std::alloc::Global;
use value_text::vocabulary::Vocabulary;

/// A chosen value, or the mark.
pub fn read_slot(
    alloc: Global,
    vocabulary: &Vocabulary,
    cursor: &mut Cursor,
) -> Result<Slot, Memory>
    requires readable { IsReadable vocabulary.now }
    ensures finds { IfOk result (λ slot. Finds (slot_text (names_with vocabulary.now)) (SlotFits (program_of vocabulary.now.checked.now))
        EndsValue cursor.old cursor.new (λ it. slot ≡ it)) }
    ensures fits { IfOk result (λ slot. IsSome cursor.new → SlotFits (program_of vocabulary.now.checked.now) slot) }
    ensures kept { OnOk result (IsSome cursor.new → IsSome cursor.old) }
    ensures fewer { OnOk result (size cursor.new ≤ size cursor.old) }
{
    if cursor.takes(b"?") {
        Ok(Slot::Mark)
    } else {
        let value = read_value(alloc, vocabulary, cursor)?;
        Ok(Slot::Of(value))
    }
}

// A further value, behind a comma, if there is one.
fn next_slot(
    alloc: Global,
    vocabulary: &Vocabulary,
    cursor: &mut Cursor,
) -> Result<Option<Slot>, Memory>
    requires readable { IsReadable vocabulary.now }
    ensures finds { IfOk result (λ found. Finds (further_text (names_with vocabulary.now))
        (SlotFits (program_of vocabulary.now.checked.now))
        EndsValue cursor.old cursor.new (λ slot. found ≡ Some slot)) }
    ensures stops { IfOk result (λ found. (rest : List ℕ) → EndsSlots rest → cursor.old ≡ Some rest →
        (found ≡ None) × (cursor.new ≡ Some rest)) }
    ensures fits { IfOk result (λ found. IsSome cursor.new → IfSome found (SlotFits (program_of vocabulary.now.checked.now))) }
    ensures kept { OnOk result (IsSome cursor.new → IsSome cursor.old) }
    ensures fewer { IfOk result (λ found. IsSome found → size cursor.new < size cursor.old) }
{
    if cursor.takes(b",") {
        let slot = read_slot(alloc, vocabulary, cursor)?;
        Ok(Some(slot))
    } else {
        Ok(None)
    }
}

// Further values, behind one that was read.
fn read_more_slots(
    alloc: Global,
    vocabulary: &Vocabulary,
    cursor: &mut Cursor,
    first: Slot,
) -> Result<Vec<Slot>, Memory>
    requires readable { IsReadable vocabulary.now }
    ensures finds { IfOk result (λ slots. Finds (further_texts (names_with vocabulary.now))
        (Each (SlotFits (program_of vocabulary.now.checked.now))) EndsSlots cursor.old cursor.new (λ all. slots.items ≡ first ∷ all)) }
    ensures fits { IfOk result (λ slots. SlotFits (program_of vocabulary.now.checked.now) first →
        IsSome cursor.new → Each (SlotFits (program_of vocabulary.now.checked.now)) slots.items) }
    ensures kept { OnOk result (IsSome cursor.new → IsSome cursor.old) }
{
    let mut slots = Vec::new(alloc);
    slots.push(first)?;
    'slots: while let Some(slot) = next_slot(alloc, vocabulary, cursor)? {
        slots.push(slot)?;
    }
    Ok(slots)
}

// Values behind the bracket that opens before them.
fn read_some_slots(
    alloc: Global,
    vocabulary: &Vocabulary,
    cursor: &mut Cursor,
) -> Result<Vec<Slot>, Memory>
    requires readable { IsReadable vocabulary.now }
    ensures finds { IfOk result (λ slots. (x : Slot) (xs : List Slot) (rest : List ℕ) →
        Each (SlotFits (program_of vocabulary.now.checked.now)) (x ∷ xs) →
        cursor.old ≡ Some (slot_text (names_with vocabulary.now) x ++
        (further_texts (names_with vocabulary.now) xs ++ (codes "]" ++ rest))) →
        (slots.items ≡ x ∷ xs) × (cursor.new ≡ Some rest)) }
    ensures fits { IfOk result (λ slots. IsSome cursor.new → Each (SlotFits (program_of vocabulary.now.checked.now)) slots.items) }
    ensures kept { OnOk result (IsSome cursor.new → IsSome cursor.old) }
{
    let first = read_slot(alloc, vocabulary, cursor)?;
    let slots = read_more_slots(alloc, vocabulary, cursor, first)?;
    cursor.skip(b"]");
    Ok(slots)
}

/// Values in brackets, or none.
pub fn read_slots(
    alloc: Global,
    vocabulary: &Vocabulary,
    cursor: &mut Cursor,
) -> Result<Vec<Slot>, Memory>
    requires readable { IsReadable vocabulary.now }
    ensures finds { IfOk result (λ slots. Finds (slots_text (names_with vocabulary.now))
        (Each (SlotFits (program_of vocabulary.now.checked.now))) EndsTree cursor.old cursor.new (λ all. slots.items ≡ all)) }
    ensures fits { IfOk result (λ slots. IsSome cursor.new → Each (SlotFits (program_of vocabulary.now.checked.now)) slots.items) }
    ensures kept { OnOk result (IsSome cursor.new → IsSome cursor.old) }
{
    if cursor.takes(b"[") {
        read_some_slots(alloc, vocabulary, cursor)
    } else {
        Ok(Vec::new(alloc))
    }
}
