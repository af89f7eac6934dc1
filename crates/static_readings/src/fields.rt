// What stands in a `let`, and what an action offers.

ghost use Rattle.std.specs.Prelude.{◌≡◌, ◌+◌, ◌∷◌, [], Some, None, IfOk, OnOk, length, map, option_map};
ghost use Rattle.std.specs.List.{flat_map};
ghost use Rattle.lotos_ast.specs.declared.token.Token.{Token};
ghost use Rattle.spec_core.specs.Code.{binding_of, action_field_of, guard_of, give, accept};
ghost use Rattle.spec_core.specs.Terms.{term_of};
ghost use Rattle.sort_overloads.specs.Judged.{Adds};
ghost use Rattle.static_readings.specs.Calls as calls;
ghost use Rattle.static_readings.specs.Calls.{IsBindingRead, AreBindingsRead};
ghost use Rattle.static_readings.specs.Declarations.{numbered_from};
ghost use Rattle.static_readings.specs.Offers as offers;
ghost use Rattle.static_readings.specs.Offers.{IsOfferRead, AreOffersRead, IsPredicateRead};
ghost use Rattle.static_readings.specs.Sites.{with_variables};
ghost use Rattle.static_readings.specs.Views.{fields_of};

use crate::site::Site;
use crate::values::{value, with_one};
use lotos_ast::behaviour::{Binding, Offer};
use lotos_ast::expression::Premiss;
use lotos_ast::refusal::Refusal;
use lotos_ast::token::Token;
use spec_core::code::ActField;
use spec_core::items::Sort;
use spec_core::memory::Memory;
use spec_core::term::Term;
use std::alloc::Global;

// The number so many behind another. Want of memory is answered where it is 2^32 or more.
fn behind(number: u32, count: usize) -> Result<u32, Memory>
    ensures { IfOk result (λ n. n ≡ number + count) }
{
    if count >= 4_294_967_296 - number as usize {
        return Err(Memory);
    }
    Ok(number + count as u32)
}

// A binding of the variable of this number.
#[tactic(auto, using(crate::proofs::Single::binding_unsorted, crate::proofs::Single::binding_unread, crate::proofs::Single::binding_read))]
fn binding(
    alloc: Global,
    site: &Site<'_>,
    number: u32,
    from: &Binding,
    refusals: &mut Vec<Refusal>,
) -> Result<Option<(u32, Sort, Term)>, Memory>
    ensures { IfOk result (λ found. Adds (IsBindingRead site.now (number, from.now) (option_map binding_of found))
        refusals.old.items refusals.new.items) }
{
    site.add_unknown_sort(alloc, &from.sort, refusals)?;
    match site.sort(&from.sort) {
        None => {
            site.add_unknowns(alloc, &from.value, refusals)?;
            Ok(None)
        }
        Some(sort) => match value(alloc, site, Some(sort), &from.value, refusals)? {
            None => Ok(None),
            Some(term) => Ok(Some((number, sort, term))),
        },
    }
}

/// The bindings of a `let`, whose variables have the next numbers.
pub fn bindings(
    alloc: Global,
    site: &Site<'_>,
    from: &[Binding],
    refusals: &mut Vec<Refusal>,
) -> Result<Option<Vec<(u32, Sort, Term)>>, Memory>
    ensures { IfOk result (λ found. Adds (AreBindingsRead site.now from.now
        (option_map (map binding_of) (option_map (λ v. v.items) found))) refusals.old.items refusals.new.items) }
{
    let first = site.variables() as u32;
    let mut all = Some(Vec::new(alloc));
    for (i, one) in from.iter().enumerate() {
        let number = behind(first, i)?;
        let found = binding(alloc, site, number, one, refusals)?;
        all = with_one(all, found)?;
    }
    Ok(all)
}

/// Puts the variables of a `let` into scope.
#[tactic(auto, using(crate::proofs::Scopes::bound_next, crate::proofs::Scopes::bound_all))]
pub fn put_bindings(alloc: Global, site: &mut Site<'_>, from: &[Binding]) -> Result<(), Memory>
    ensures { OnOk result (site.new ≡ with_variables site.old (map (calls.variable_of site.old) from.now)) }
{
    for one in from {
        site.put_variable(alloc, &one.name, &one.sort)?;
    }
    Ok(())
}

// The value of a term as the only field.
fn given(alloc: Global, term: Term) -> Result<Option<Vec<ActField>>, Memory>
    ensures { IfOk result (λ found. option_map fields_of found ≡ Some (give (term_of term) ∷ [])) }
{
    let mut fields = Vec::new(alloc);
    fields.push(ActField::Give(term))?;
    Ok(Some(fields))
}

// Fields that variables of a sort take, of which the first has this number.
#[tactic(auto, using(crate::proofs::Offered::taken_next, crate::proofs::Offered::taken_all))]
fn taken(alloc: Global, number: u32, names: &[Token], sort: Sort) -> Result<Vec<ActField>, Memory>
    ensures { IfOk result (λ fields. fields_of fields
        ≡ map accept (numbered_from number (map (λ t. record { name = t.text; sort = sort.0 }) names.now))) }
{
    let mut fields = Vec::new(alloc);
    for (i, _name) in names.iter().enumerate() {
        fields.push(ActField::Take(behind(number, i)?, sort))?;
    }
    Ok(fields)
}

// The same, where the sort is known.
#[tactic(auto, using(crate::proofs::Offered::accepting_unknown, crate::proofs::Offered::accepting_known))]
fn accepting(
    alloc: Global,
    site: &Site<'_>,
    number: u32,
    names: &[Token],
    sort: &Token,
) -> Result<Option<Vec<ActField>>, Memory>
    ensures { IfOk result (λ found. option_map fields_of found ≡ offers.accepting site.now number names.now sort.now) }
{
    match site.sort(sort) {
        None => Ok(None),
        Some(sort) => Ok(Some(taken(alloc, number, names, sort)?)),
    }
}

// The fields of an offer, whose first variable has this number.
#[tactic(auto, using(crate::proofs::Offered::offer_unread, crate::proofs::Offered::offer_given, crate::proofs::Offered::offer_accepting))]
fn offer(
    alloc: Global,
    site: &Site<'_>,
    number: u32,
    from: &Offer,
    refusals: &mut Vec<Refusal>,
) -> Result<Option<Vec<ActField>>, Memory>
    ensures { IfOk result (λ found. Adds (IsOfferRead site.now (number, from.now) (option_map fields_of found))
        refusals.old.items refusals.new.items) }
{
    match from {
        Offer::Value { place: _, value } => match site.judge(alloc, value, None, refusals)? {
            None => Ok(None),
            Some(found) => given(alloc, found.term),
        },
        Offer::Variables {
            place: _,
            names,
            sort,
        } => {
            site.add_unknown_sort(alloc, sort, refusals)?;
            accepting(alloc, site, number, names, sort)
        }
    }
}

/// The names of the variables that an offer declares. It takes no memory.
pub fn names_of(offer: &Offer) -> &[Token]
    ensures { result.now ≡ offers.names_of offer.now }
{
    match offer {
        Offer::Value { place: _, value: _ } => &[],
        Offer::Variables {
            place: _,
            names,
            sort: _,
        } => names,
    }
}

/// The fields of offers, by offers. They don't see the variables that the offers declare.
pub fn fields(
    alloc: Global,
    site: &Site<'_>,
    from: &[Offer],
    refusals: &mut Vec<Refusal>,
) -> Result<Option<Vec<Vec<ActField>>>, Memory>
    ensures { IfOk result (λ found. Adds (AreOffersRead site.now from.now
        (option_map (map fields_of) (option_map (λ v. v.items) found))) refusals.old.items refusals.new.items) }
{
    let mut number = site.variables() as u32;
    let mut all = Some(Vec::new(alloc));
    for one in from {
        let found = offer(alloc, site, number, one, refusals)?;
        all = with_one(all, found)?;
        number = behind(number, names_of(one).len())?;
    }
    Ok(all)
}

/// The same fields in one list.
pub fn joined(alloc: Global, fields: Vec<Vec<ActField>>) -> Result<Vec<ActField>, Memory>
    ensures { IfOk result (λ all. fields_of all ≡ flat_map (λ all. all) (map fields_of fields.items)) }
{
    let mut all = Vec::new(alloc);
    for mut one in fields {
        all.append(&mut one)?;
    }
    Ok(all)
}

// Puts the variables of an offer into scope.
fn put_offer(alloc: Global, site: &mut Site<'_>, offer: &Offer) -> Result<(), Memory>
    ensures { OnOk result (site.new ≡ with_variables site.old (offers.variables_of site.old offer.now)) }
{
    match offer {
        Offer::Value { place: _, value: _ } => Ok(()),
        Offer::Variables {
            place: _,
            names,
            sort,
        } => site.put_variables(alloc, names, sort),
    }
}

/// Puts the variables of offers into scope.
#[tactic(auto, using(crate::proofs::Scopes::offered_next, crate::proofs::Scopes::offered_all))]
pub fn put_offers(alloc: Global, site: &mut Site<'_>, from: &[Offer]) -> Result<(), Memory>
    ensures { OnOk result (site.new ≡ with_variables site.old (offers.offered_variables site.old from.now)) }
{
    for one in from {
        put_offer(alloc, site, one)?;
    }
    Ok(())
}

/// A predicate, if there is one.
#[tactic(auto, using(crate::proofs::Offered::predicate_rows))]
pub fn predicate(
    alloc: Global,
    site: &Site<'_>,
    from: Option<&Premiss>,
    refusals: &mut Vec<Refusal>,
) -> Result<Option<Option<(Term, Term)>>, Memory>
    ensures { IfOk result (λ found. Adds (IsPredicateRead site.now (option_map (λ p. p.now) from.entry) (option_map guard_of found))
        refusals.old.items refusals.new.items) }
{
    match from {
        None => Ok(Some(None)),
        Some(premiss) => match site.judge_premiss(alloc, premiss, refusals)? {
            None => Ok(None),
            Some(terms) => Ok(Some(Some(terms))),
        },
    }
}
