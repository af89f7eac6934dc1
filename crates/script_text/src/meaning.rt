// What a line means.

ghost use Rattle.std.specs.Prelude.{◌≡◌, ◌<◌, true, false, IfOk, map};
ghost use Rattle.std.specs.List.{list_any};
ghost use Rattle.spec_core.specs.Lists.{OneOf};
ghost use Rattle.sort_overloads.specs.Views.{context_of};
ghost use Rattle.script_text.specs.Answers.{IfKind};
ghost use Rattle.script_text.specs.Faults.{IsFaultOf, IsOfferFault};
ghost use Rattle.script_text.specs.Meanings.{has_unknown_sort, HasUnclearTerm, FieldMeans, FieldsMean, LineMeans, OfferMeans};
ghost use Rattle.script_text.specs.Numbers.{is_number};
ghost use Rattle.script_text.specs.Views.{field_of, line_said, client_wish_of};
ghost use Rattle.script_text.specs.Wishes.{wished_field_of, wished_of};

use crate::fault::LineFault;
use crate::names::first_named;
use crate::numbers::client_of;
use crate::vocabulary::Vocabulary;
use crate::wish::{Wish, WishField};
use crate::written::{WrittenField, WrittenLine};
use lotos_ast::text_kind::TextKind;
use lotos_ast::token::Token;
use spec_core::items::{Gate, Sort};
use spec_core::memory::Memory;
use spec_core::name::Name;
use std::alloc::Global;

// Whether a field names a sort that isn't known.
fn has_unknown_sort(
    alloc: Global,
    vocabulary: &Vocabulary,
    field: &WrittenField,
) -> Result<bool, Memory>
    ensures { IfOk result (λ found. found ≡ has_unknown_sort (context_of vocabulary.now.scope) (field_of field.now)) }
{
    match field {
        WrittenField::Value(expr) => vocabulary.says_unknown_sort(alloc, expr),
        WrittenField::Sort(name) => Ok(vocabulary.sort(name)?.is_none()),
    }
}

// Whether one of the fields does.
fn any_unknown_sort(
    alloc: Global,
    vocabulary: &Vocabulary,
    fields: &[WrittenField],
) -> Result<bool, Memory>
    ensures { IfOk result (λ found.
        found ≡ list_any (has_unknown_sort (context_of vocabulary.now.scope)) (map field_of fields.now)) }
{
    for field in fields {
        if has_unknown_sort(alloc, vocabulary, field)? {
            return Ok(true);
        }
    }
    Ok(false)
}

// What a field means, whose sorts are known.
fn field_meaning(
    alloc: Global,
    vocabulary: &Vocabulary,
    field: &WrittenField,
) -> Result<WishField, LineFault>
    ensures means { IfOk result (λ w. FieldMeans (context_of vocabulary.now.scope) (field_of field.now) (wished_field_of w)) }
    ensures unclear { IfKind result (λ kind. HasUnclearTerm (context_of vocabulary.now.scope) (field_of field.now)) }
    ensures term { IfKind result (λ kind. kind ≡ TextKind.Term) }
{
    match field {
        WrittenField::Value(expr) => {
            let found = vocabulary.term(alloc, expr)?;
            Ok(WishField::Give(found.term))
        }
        WrittenField::Sort(name) => match vocabulary.sort(name)? {
            Some(sort) => Ok(WishField::Take(Sort(sort))),
            None => Err(LineFault::Memory),
        },
    }
}

// What fields mean, whose sorts are known.
#[tactic(auto, using(crate::proofs::FieldMeanings::meaning_steps))]
fn fields_meaning(
    alloc: Global,
    vocabulary: &Vocabulary,
    fields: &[WrittenField],
) -> Result<Vec<WishField>, LineFault>
    ensures mean { IfOk result (λ all.
        FieldsMean (context_of vocabulary.now.scope) (map field_of fields.now) (map wished_field_of all.items)) }
    ensures unclear { IfKind result (λ kind. OneOf (HasUnclearTerm (context_of vocabulary.now.scope)) (map field_of fields.now)) }
    ensures term { IfKind result (λ kind. kind ≡ TextKind.Term) }
{
    let mut all = Vec::new(alloc);
    for field in fields {
        all.push(field_meaning(alloc, vocabulary, field)?)?;
    }
    Ok(all)
}

// What an offer means, or a question whether it would be taken.
#[tactic(auto, using(crate::proofs::Rows::offer_rows))]
pub fn offer_meaning(
    alloc: Global,
    vocabulary: &Vocabulary,
    gates: &[Name],
    name: &Token,
    fields: &[WrittenField],
    ask: bool,
) -> Result<Wish, LineFault>
    ensures means { IfOk result (λ w.
        OfferMeans (context_of vocabulary.now.scope) gates.now name.now.text (map field_of fields.now) (wished_of w)) }
    ensures ask { IfOk result (λ w. w.ask ≡ ask) }
    ensures fault { IfKind result
        (IsOfferFault (context_of vocabulary.now.scope) gates.now name.now.text (map field_of fields.now)) }
{
    let Some(gate) = first_named(name.text.as_str(), gates)? else {
        return Err(LineFault::Kind(TextKind::Gate));
    };
    if any_unknown_sort(alloc, vocabulary, fields)? {
        return Err(LineFault::Kind(TextKind::Sort));
    }
    let fields = fields_meaning(alloc, vocabulary, fields)?;
    Ok(Wish {
        ask,
        gate: Gate(gate),
        fields,
    })
}

// What a line means: which client has which wish.
#[tactic(auto, using(crate::proofs::Rows::meaning_rows))]
pub fn line_meaning(
    alloc: Global,
    vocabulary: &Vocabulary,
    gates: &[Name],
    line: &WrittenLine,
) -> Result<(u32, Wish), LineFault>
    requires number { is_number line.now.client.text ≡ true }
    ensures means { IfOk result (λ x.
        LineMeans (context_of vocabulary.now.scope) gates.now (line_said line.now) (client_wish_of x)) }
    ensures client { IfOk result (λ x. 0 < x.0) }
    ensures fault { IfKind result (IsFaultOf (context_of vocabulary.now.scope) gates.now (line_said line.now)) }
{
    let Some(client) = client_of(line.client.text.as_str().as_bytes()) else {
        return Err(LineFault::Kind(TextKind::Client));
    };
    let ask = line.asks();
    let wish = offer_meaning(alloc, vocabulary, gates, line.gate(), &line.fields, ask)?;
    Ok((client, wish))
}
