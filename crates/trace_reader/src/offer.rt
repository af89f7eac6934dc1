// Offers.

ghost use Rattle.std.specs.Prelude.{◌≡◌, ◌<◌, List, ℕ, IfOk, IfSome, IsSome, None, OnOk, Some, flat_map};
ghost use Rattle.spec_core.specs.Code.{program_of};
ghost use Rattle.spec_core.specs.Lists.{Each};
ghost use Rattle.trace_text.specs.Fits.{FieldFits, OfferFits};
ghost use Rattle.trace_text.specs.Names.{names_with};
ghost use Rattle.trace_text.specs.Trace.{field_text, offer_text};
ghost use Rattle.trace_reader.specs.Cursors.{EndsFields, EndsValue, Finds, IsReadable, size};

use crate::cursor::Cursor;
use crate::named::read_named;
use crate::value::read_value;
use rule_model::offer::{Field, Fields, Offer};
use spec_core::items::{Gate, Sort};
use spec_core::memory::Memory;
use std::alloc::Global;
use value_text::vocabulary::Vocabulary;

// A further field of an offer, if there is one.
fn next_field(
    alloc: Global,
    vocabulary: &Vocabulary,
    cursor: &mut Cursor,
) -> Result<Option<Field>, Memory>
    requires readable { IsReadable vocabulary.now }
    ensures finds { IfOk result (λ found. Finds (field_text (names_with vocabulary.now)) (FieldFits (program_of vocabulary.now.checked.now))
        EndsValue cursor.old cursor.new (λ field. found ≡ Some field)) }
    ensures stops { IfOk result (λ found. (rest : List ℕ) → EndsFields rest → cursor.old ≡ Some rest →
        (found ≡ None) × (cursor.new ≡ Some rest)) }
    ensures fits { IfOk result (λ found. IsSome cursor.new → IfSome found (FieldFits (program_of vocabulary.now.checked.now))) }
    ensures kept { OnOk result (IsSome cursor.new → IsSome cursor.old) }
    ensures fewer { IfOk result (λ found. IsSome found → size cursor.new < size cursor.old) }
{
    if cursor.takes(b" !") {
        let value = read_value(alloc, vocabulary, cursor)?;
        Ok(Some(Field::Give(value)))
    } else if cursor.takes(b" ?") {
        let sort = read_named(cursor, &vocabulary.checked.algebra.signature.sorts)?;
        Ok(Some(Field::Take(Sort(sort))))
    } else {
        Ok(None)
    }
}

// The fields of an offer.
fn read_fields(
    alloc: Global,
    vocabulary: &Vocabulary,
    cursor: &mut Cursor,
) -> Result<Vec<Field>, Memory>
    requires readable { IsReadable vocabulary.now }
    ensures finds { IfOk result (λ fields. Finds (flat_map (field_text (names_with vocabulary.now)))
        (Each (FieldFits (program_of vocabulary.now.checked.now))) EndsFields cursor.old cursor.new (λ all. fields.items ≡ all)) }
    ensures fits { IfOk result (λ fields. IsSome cursor.new → Each (FieldFits (program_of vocabulary.now.checked.now)) fields.items) }
    ensures kept { OnOk result (IsSome cursor.new → IsSome cursor.old) }
{
    let mut fields = Vec::new(alloc);
    'fields: while let Some(field) = next_field(alloc, vocabulary, cursor)? {
        fields.push(field)?;
    }
    Ok(fields)
}

/// An offer.
pub fn read_offer(
    alloc: Global,
    vocabulary: &Vocabulary,
    cursor: &mut Cursor,
) -> Result<Offer, Memory>
    requires readable { IsReadable vocabulary.now }
    ensures finds { IfOk result (λ offer. Finds (offer_text (names_with vocabulary.now)) (OfferFits (program_of vocabulary.now.checked.now))
        EndsFields cursor.old cursor.new (λ it. offer ≡ it)) }
    ensures fits { IfOk result (λ offer. IsSome cursor.new → OfferFits (program_of vocabulary.now.checked.now) offer) }
    ensures kept { OnOk result (IsSome cursor.new → IsSome cursor.old) }
{
    let gate = read_named(cursor, &vocabulary.checked.gates)?;
    let fields = read_fields(alloc, vocabulary, cursor)?;
    Ok(Offer {
        gate: Gate(gate),
        fields: Fields::new(fields),
    })
}
