// The refusal of types that are made from themselves.

ghost use Rattle.std.specs.Prelude.{◌≡◌, ◌++◌, IfOk, OnOk, map};
ghost use Rattle.std.specs.List.{flat_map};
ghost use Rattle.type_contents.specs.Uses.{links};
ghost use Rattle.type_names.specs.TypeCycles.{name_at, cycle_refused, names_on, cycle_refusals};

use crate::names::add_type_name;
use lotos_ast::names::Names;
use lotos_ast::refusal::{Refusal, RefusalKind};
use lotos_ast::token::Token;
use lotos_ast::types::TypeDef;
use spec_core::memory::Memory;
use spec_core::name::Name;
use std::alloc::Global;
use type_contents::schedule::links_of;
use type_cycles::cycle::first_cycle;
use type_cycles::numbers::Numbers;

// Of each type the numbers of those of which it is made.
fn all_links(alloc: Global, types: &[TypeDef]) -> Result<Vec<Numbers>, Memory>
    ensures { IfOk result (λ all. all.items ≡ map (links types.now) types.now) }
{
    let found = links_of(alloc, types)?;
    let mut all = Vec::new(alloc);
    for one in found {
        all.push(Numbers::new(one.numbers))?;
    }
    Ok(all)
}

// Adds the name of the type of this number, if there is one.
#[tactic(auto, using(spec_core::proofs::Lists::slice_get_next, std::proofs::lemmas::Option::slice_get_past))]
fn add_name_at<'a>(
    all: &mut Vec<&'a Token>,
    types: &'a [TypeDef],
    number: usize,
) -> Result<(), Memory>
    ensures { OnOk result (map (λ t. t.now) all.new.items ≡ map (λ t. t.now) all.old.items ++ name_at types.now number) }
{
    if number < types.len() {
        add_type_name(all, &types[number])
    } else {
        Ok(())
    }
}

// The names of the types of these numbers.
fn names_at<'a>(
    alloc: Global,
    types: &'a [TypeDef],
    numbers: &[usize],
) -> Result<Vec<&'a Token>, Memory>
    ensures { IfOk result (λ all. map (λ t. t.now) all.items ≡ flat_map (name_at types.now) numbers.now) }
{
    let mut all = Vec::new(alloc);
    for number in numbers {
        add_name_at(&mut all, types, *number)?;
    }
    Ok(all)
}

// The names of the types on a way, if there is one.
fn names_on<'a>(
    alloc: Global,
    types: &'a [TypeDef],
    way: &Option<Numbers>,
) -> Result<Vec<&'a Token>, Memory>
    ensures { IfOk result (λ all. map (λ t. t.now) all.items ≡ names_on types.now way.now) }
{
    match way {
        None => Ok(Vec::new(alloc)),
        Some(found) => names_at(alloc, types, found.as_slice()),
    }
}

// How names are spelled.
fn texts(alloc: Global, names: &[&Token]) -> Result<Vec<Name>, Memory>
    ensures { IfOk result (λ all. all.items ≡ map (λ t. t.text) (map (λ t. t.now) names.now)) }
{
    let mut all = Vec::new(alloc);
    for name in names {
        all.push(name.text.copy(alloc)?)?;
    }
    Ok(all)
}

// Refuses types of these names at the first of them, if there is one.
fn add_refused(alloc: Global, names: &[&Token], refusals: &mut Vec<Refusal>) -> Result<(), Memory>
    ensures { OnOk result (refusals.new.items ≡ refusals.old.items ++ cycle_refused (map (λ t. t.now) names.now)) }
{
    match names {
        [] => Ok(()),
        [first, ..] => {
            refusals.push(Refusal {
                kind: RefusalKind::TypeCycle,
                place: first.place,
                names: Names::new(texts(alloc, names)?),
            })?;
            Ok(())
        }
    }
}

/// Refuses the first type that is made from itself.
pub fn add_cycle(
    alloc: Global,
    types: &[TypeDef],
    refusals: &mut Vec<Refusal>,
) -> Result<(), Memory>
    ensures { OnOk result (refusals.new.items ≡ refusals.old.items ++ cycle_refusals types.now) }
{
    let links = all_links(alloc, types)?;
    let way = first_cycle(alloc, &links)?;
    let names = names_on(alloc, types, &way)?;
    add_refused(alloc, &names, refusals)
}
