// Names that a construct declares twice.

ghost use Rattle.std.specs.Prelude.{◌≡◌, ◌++◌, IfOk, OnOk, map};
ghost use Rattle.type_names.specs.DuplicateNames.{names_twice};
ghost use Rattle.static_readings.specs.Offers as offers;

use lotos_ast::behaviour::{Binding, GateChoice, Offer};
use lotos_ast::refusal::Refusal;
use lotos_ast::token::Token;
use spec_core::memory::Memory;
use static_readings::fields::names_of;
use std::alloc::Global;
use type_names::duplicates::add_names_twice;
use type_names::names::add_names;

/// Refuses gates that have the name of an earlier one (9 DuplicateName).
pub fn add_gates_twice(
    alloc: Global,
    gates: &[Token],
    refusals: &mut Vec<Refusal>,
) -> Result<(), Memory>
    ensures { OnOk result (refusals.new.items ≡ refusals.old.items ++ names_twice gates.now) }
{
    let mut names = Vec::new(alloc);
    add_names(&mut names, gates)?;
    add_names_twice(alloc, &names, refusals)
}

// The names of the variables that offers declare.
fn offered_names<'o>(alloc: Global, from: &'o [Offer]) -> Result<Vec<&'o Token>, Memory>
    ensures { IfOk result (λ all. map (λ t. t.now) all.items ≡ offers.offered_names from.now) }
{
    let mut all = Vec::new(alloc);
    for one in from {
        add_names(&mut all, names_of(one))?;
    }
    Ok(all)
}

/// Refuses variables of offers that have the name of an earlier one (9 DuplicateName).
pub fn add_offered_twice(
    alloc: Global,
    from: &[Offer],
    refusals: &mut Vec<Refusal>,
) -> Result<(), Memory>
    ensures { OnOk result (refusals.new.items ≡ refusals.old.items ++ names_twice (offers.offered_names from.now)) }
{
    let names = offered_names(alloc, from)?;
    add_names_twice(alloc, &names, refusals)
}

// The names of the variables of a `let`.
fn bound_names<'b>(alloc: Global, from: &'b [Binding]) -> Result<Vec<&'b Token>, Memory>
    ensures { IfOk result (λ all. map (λ t. t.now) all.items ≡ map (λ b. b.name) from.now) }
{
    let mut all = Vec::new(alloc);
    for one in from {
        all.push(&one.name)?;
    }
    Ok(all)
}

/// Refuses variables of a `let` that have the name of an earlier one (9 DuplicateName).
pub fn add_bound_twice(
    alloc: Global,
    from: &[Binding],
    refusals: &mut Vec<Refusal>,
) -> Result<(), Memory>
    ensures { OnOk result (refusals.new.items ≡ refusals.old.items ++ names_twice (map (λ b. b.name) from.now)) }
{
    let names = bound_names(alloc, from)?;
    add_names_twice(alloc, &names, refusals)
}

// The gates that stand for each of some gates.
fn chosen_names<'c>(alloc: Global, from: &'c [GateChoice]) -> Result<Vec<&'c Token>, Memory>
    ensures { IfOk result (λ all. map (λ t. t.now) all.items ≡ map (λ c. c.gate) from.now) }
{
    let mut all = Vec::new(alloc);
    for one in from {
        all.push(&one.gate)?;
    }
    Ok(all)
}

/// Refuses gates of a choice that have the name of an earlier one (9 DuplicateName).
pub fn add_chosen_twice(
    alloc: Global,
    from: &[GateChoice],
    refusals: &mut Vec<Refusal>,
) -> Result<(), Memory>
    ensures { OnOk result (refusals.new.items ≡ refusals.old.items ++ names_twice (map (λ c. c.gate) from.now)) }
{
    let names = chosen_names(alloc, from)?;
    add_names_twice(alloc, &names, refusals)
}
