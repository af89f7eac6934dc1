// Offers with the values of their terms.

ghost use Rattle.std.specs.Prelude.{◌≡◌, ◌<◌, ℕ, IfOk, IfErr, length, map};
ghost use Rattle.spec_core.specs.Executable.{IsExecutable};
ghost use Rattle.spec_core.specs.Lists.{Each};
ghost use Rattle.spec_core.specs.Sorts.{FitsGround};
ghost use Rattle.spec_core.specs.Terms.{term_of};
ghost use Rattle.rewriter.specs.Answers.{SpellsValue, IsWithin};
ghost use Rattle.script_text.specs.Scripts.{FieldFits, WishFits};
ghost use Rattle.script_text.specs.Wishes.{wished_field_of, wished_of};
ghost use Rattle.match_code.specs.Prepared.{program_in};
ghost use Rattle.script_offers.specs.Faults.{HasNoValue, IsFaultOf};
ghost use Rattle.script_offers.specs.Given.{given_in, given_by, all_given, IsValuedWithin};
ghost use Rattle.rule_model.specs.WishViews.{wish_of};
ghost use Rattle.script_offers.specs.Valued.{IsValuedField, AreValuedFields, IsValuedWish, AreValued, GivesValues};

use crate::fault::WishFault;
use match_code::{Eval, Prepared};
use rule_model::offer::{Field, Fields, Offer};
use rule_model::wish::ClientWish;
use script_text::wish::{Wish, WishField};
use spec_core::term::Term;
use spec_core::value::Value;
use std::alloc::Global;

// The value of a term.
fn value_of(
    alloc: Global,
    prepared: &Prepared,
    term: &Term,
    budget: u64,
) -> Result<Value, WishFault>
    requires executable { IsExecutable (program_in prepared.now).theory }
    requires fits { FitsGround (program_in prepared.now).theory (term_of term.now) }
    ensures value { IfOk result (SpellsValue (program_in prepared.now).theory (term_of term.now) budget) }
    ensures fault { IfErr result (HasNoValue (program_in prepared.now).theory budget (term_of term.now)) }
{
    match prepared.value(alloc, term, budget) {
        Ok(value) => Ok(value),
        Err(Eval::Spent) => Err(WishFault::Spent(term.copy(alloc)?)),
        Err(Eval::TooLarge) => Err(WishFault::TooLarge(term.copy(alloc)?)),
        Err(Eval::Memory) => Err(WishFault::Memory),
    }
}

// A field with the value of its term.
fn valued_field(
    alloc: Global,
    prepared: &Prepared,
    field: &WishField,
    budget: u64,
) -> Result<Field, WishFault>
    requires executable { IsExecutable (program_in prepared.now).theory }
    requires fits { FieldFits (program_in prepared.now).theory (wished_field_of field.now) }
    ensures valued { IfOk result (IsValuedField (program_in prepared.now).theory (wished_field_of field.now)) }
    ensures within { IfOk result (λ f.
        Each (IsValuedWithin (program_in prepared.now).theory budget) (given_in (wished_field_of field.now))) }
    ensures fault { IfErr result (IsFaultOf (program_in prepared.now).theory budget (given_in (wished_field_of field.now))) }
{
    match field {
        WishField::Give(term) => {
            let value = value_of(alloc, prepared, term, budget)?;
            Ok(Field::Give(value))
        }
        WishField::Take(sort) => Ok(Field::Take(*sort)),
    }
}

// Fields with the values of their terms.
fn valued_fields(
    alloc: Global,
    prepared: &Prepared,
    fields: &[WishField],
    budget: u64,
) -> Result<Fields, WishFault>
    requires executable { IsExecutable (program_in prepared.now).theory }
    requires fit { Each (FieldFits (program_in prepared.now).theory) (map wished_field_of fields.now) }
    ensures valued { IfOk result (AreValuedFields (program_in prepared.now).theory (map wished_field_of fields.now)) }
    ensures within { IfOk result (λ fs.
        Each (IsValuedWithin (program_in prepared.now).theory budget) (given_by (map wished_field_of fields.now))) }
    ensures fault { IfErr result
        (IsFaultOf (program_in prepared.now).theory budget (given_by (map wished_field_of fields.now))) }
{
    let mut all = Vec::new(alloc);
    for field in fields {
        all.push(valued_field(alloc, prepared, field, budget)?)?;
    }
    Ok(Fields::new(all))
}

/// The offer that comes of one wish, as `offers_of` says.
pub fn offer_of(
    alloc: Global,
    prepared: &Prepared,
    wish: &Wish,
    budget: u64,
) -> Result<ClientWish, WishFault>
    requires executable { IsExecutable (program_in prepared.now).theory }
    requires fits { WishFits (program_in prepared.now) (wished_of wish.now) }
    ensures valued { IfOk result (λ w. IsValuedWish (program_in prepared.now).theory (wished_of wish.now) (wish_of w)) }
    ensures within { IfOk result (λ w.
        Each (IsValuedWithin (program_in prepared.now).theory budget) (given_by (wished_of wish.now).fields)) }
    ensures fault { IfErr result (IsFaultOf (program_in prepared.now).theory budget (given_by (wished_of wish.now).fields)) }
{
    let fields = valued_fields(alloc, prepared, &wish.fields, budget)?;
    Ok(ClientWish {
        offer: Offer {
            gate: wish.gate,
            fields,
        },
        ask: wish.ask,
    })
}

// Wishes with the values of their terms.
fn valued(
    alloc: Global,
    prepared: &Prepared,
    wishes: &[Wish],
    budget: u64,
) -> Result<Vec<ClientWish>, WishFault>
    requires executable { IsExecutable (program_in prepared.now).theory }
    requires fit { Each (WishFits (program_in prepared.now)) (map wished_of wishes.now) }
    ensures valued { IfOk result (λ all.
        AreValued (program_in prepared.now).theory (map wished_of wishes.now) (map wish_of all.items)) }
    ensures within { IfOk result (λ all.
        Each (IsValuedWithin (program_in prepared.now).theory budget) (all_given (map wished_of wishes.now))) }
    ensures fault { IfErr result (IsFaultOf (program_in prepared.now).theory budget (all_given (map wished_of wishes.now))) }
{
    let mut all = Vec::new(alloc);
    for wish in wishes {
        all.push(offer_of(alloc, prepared, wish, budget)?)?;
    }
    Ok(all)
}

/// The offers that come of what a client wishes: as many, in the same order, each at the same gate, made or only asked for as it was, with
/// the value of each term that is given, and with each sort that is taken. Each term is evaluated with at most `budget` uses of equations,
/// wish by wish and field by field; the first of them that has no value within the budget, or meets a value of more than 65,536 symbols, is
/// the fault. It recurs as deep as the terms and the equations nest.
pub fn offers_of(
    alloc: Global,
    prepared: &Prepared,
    wishes: &[Wish],
    budget: u64,
) -> Result<Vec<ClientWish>, WishFault>
    requires executable { IsExecutable (program_in prepared.now).theory }
    requires fit { Each (WishFits (program_in prepared.now)) (map wished_of wishes.now) }
    // The offers.
    ensures valued { IfOk result (λ all.
        AreValued (program_in prepared.now).theory (map wished_of wishes.now) (map wish_of all.items)) }
    ensures within { IfOk result (λ all.
        Each (IsValuedWithin (program_in prepared.now).theory budget) (all_given (map wished_of wishes.now))) }
    ensures gates { IfOk result (λ all.
        Each (λ w. w.offer.gate.0 < length (program_in prepared.now).gates) (map wish_of all.items)) }
    ensures values { IfOk result (λ all. Each (GivesValues (program_in prepared.now).theory) (map wish_of all.items)) }
    // Or the first term that has no value.
    ensures fault { IfErr result (IsFaultOf (program_in prepared.now).theory budget (all_given (map wished_of wishes.now))) }
    ensures complete { Each (λ t. IsWithin (program_in prepared.now).theory t budget) (all_given (map wished_of wishes.now)) →
        IfErr result (λ e. e ≡ WishFault.Memory) }
{
    valued(alloc, prepared, wishes, budget)
}
