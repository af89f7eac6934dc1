// Refusals of copies of types.

ghost use Rattle.std.specs.Prelude.{◌≡◌, ◌++◌, ◌<◌, [], IfOk, OnOk, length, map};
ghost use Rattle.std.specs.List.{flat_map};
ghost use Rattle.type_contents.specs.Images.{renaming_of};
ghost use Rattle.type_contents.specs.Contents.{items_of, formals_of};
ghost use Rattle.type_contents.specs.Views.{items_at, AreWithin};
ghost use Rattle.flattening.specs.Views.{all_of};
ghost use Rattle.type_copies.specs.Copies.{copy};
ghost use Rattle.type_copies.specs.BadRenamings.{bad_pairs};
ghost use Rattle.type_copies.specs.BadActuals.{bad_actuals};
ghost use Rattle.type_copies.specs.Views.{item_at};
ghost use Rattle.flattening.specs.Refusals.{bad_renaming, bad_actualization, bad_copy_by, bad_copy};

use lotos_ast::place::Place;
use lotos_ast::refusal::Refusal;
use lotos_ast::token::Token;
use lotos_ast::types::{Pairs, TypeBody, TypeDef};
use spec_core::memory::Memory;
use std::alloc::Global;
use type_contents::contents::Contents;
use type_contents::flat::FlatData;
use type_contents::item::Item;
use type_contents::item_table::ItemTable;
use type_contents::numbers::number_of;
use type_copies::actuals::add_bad_actuals;
use type_copies::bad_pairs::add_bad_pairs;
use type_copies::copy::{copy_of, items_at};

// Adds items by their numbers in a table.
fn add_items<'c>(
    all: &mut Vec<&'c Item>,
    table: &'c ItemTable,
    numbers: &[usize],
) -> Result<(), Memory>
    requires { AreWithin (length table.now) numbers.now }
    ensures { OnOk result (map item_at all.new.items ≡ map item_at all.old.items ++ items_at table.now numbers.now) }
{
    for number in numbers {
        all.push(table.item(*number))?;
    }
    Ok(())
}

// Adds what the type of this name has.
fn add_items_of<'c>(
    all: &mut Vec<&'c Item>,
    types: &[TypeDef],
    contents: &'c Contents,
    name: &Token,
) -> Result<(), Memory>
    ensures { OnOk result (map item_at all.new.items ≡ map item_at all.old.items ++ items_of types.now contents.now name.now) }
{
    let content = contents.of_type(number_of(types, name));
    add_items(all, content.table, content.items)
}

// What the types of these names have.
fn items_of_all<'c>(
    alloc: Global,
    types: &[TypeDef],
    contents: &'c Contents,
    names: &[Token],
) -> Result<Vec<&'c Item>, Memory>
    ensures { IfOk result (λ all. map item_at all.items ≡ flat_map (items_of types.now contents.now) names.now) }
{
    let mut all = Vec::new(alloc);
    for name in names {
        add_items_of(&mut all, types, contents, name)?;
    }
    Ok(all)
}

// What is left open in the type of this name.
fn formals_of<'c>(
    alloc: Global,
    types: &[TypeDef],
    contents: &'c Contents,
    name: &Token,
) -> Result<Vec<&'c Item>, Memory>
    ensures { IfOk result (λ all. map item_at all.items ≡ formals_of types.now contents.now name.now) }
{
    let content = contents.of_type(number_of(types, name));
    items_at(alloc, content.table, content.formals)
}

// Refuses the pairs of a copy with new names.
fn add_bad_renamed(
    alloc: Global,
    types: &[TypeDef],
    contents: &Contents,
    source: &Token,
    pairs: &Pairs,
    refusals: &mut Vec<Refusal>,
) -> Result<(), Memory>
    ensures { OnOk result (refusals.new.items ≡ refusals.old.items ++ bad_renaming types.now contents.now source.now pairs.now) }
{
    let content = contents.of_type(number_of(types, source));
    let copy = copy_of(alloc, content.table, content.items, &[], pairs)?;
    add_bad_pairs(alloc, &copy, pairs, refusals)
}

// Refuses the pairs of a copy whose formal items are replaced.
fn add_bad_actualized(
    alloc: Global,
    types: &[TypeDef],
    contents: &Contents,
    source: &Token,
    pairs: &Pairs,
    refusals: &mut Vec<Refusal>,
) -> Result<(), Memory>
    ensures { OnOk result (refusals.new.items ≡ refusals.old.items ++ bad_pairs
        (copy (items_of types.now contents.now source.now) (formals_of types.now contents.now source.now) (renaming_of pairs.now))
        pairs.now) }
{
    let content = contents.of_type(number_of(types, source));
    let copy = copy_of(alloc, content.table, content.items, content.formals, pairs)?;
    add_bad_pairs(alloc, &copy, pairs, refusals)
}

// Refuses the formal items of a type that no item of the actual types replaces.
#[tactic(auto, using(crate::proofs::Judged::both_bad))]
fn add_unfitted(
    alloc: Global,
    types: &[TypeDef],
    flat: &FlatData<'_>,
    place: Place,
    source: &Token,
    actuals: &[Token],
    pairs: &Pairs,
    refusals: &mut Vec<Refusal>,
) -> Result<(), Memory>
    ensures { OnOk result (refusals.new.items ≡ refusals.old.items ++ bad_actuals place pairs.now
        (formals_of types.now flat.now.contents source.now) (flat_map (items_of types.now flat.now.contents) actuals.now)
        (all_of flat.now)) }
{
    let formals = formals_of(alloc, types, &flat.contents, source)?;
    let actual = items_of_all(alloc, types, &flat.contents, actuals)?;
    add_bad_actuals(
        alloc,
        place,
        pairs,
        &formals,
        &actual,
        &flat.sorts,
        refusals,
    )?;
    add_bad_actuals(
        alloc,
        place,
        pairs,
        &formals,
        &actual,
        &flat.operations,
        refusals,
    )
}

// Refuses what can't be of a copy whose formal items are replaced.
fn add_bad_actualization(
    alloc: Global,
    types: &[TypeDef],
    flat: &FlatData<'_>,
    place: Place,
    source: &Token,
    actuals: &[Token],
    pairs: &Pairs,
    refusals: &mut Vec<Refusal>,
) -> Result<(), Memory>
    ensures { OnOk result (refusals.new.items ≡ refusals.old.items ++ bad_actualization types.now flat.now.contents (all_of flat.now)
        place source.now actuals.now pairs.now) }
{
    add_bad_actualized(alloc, types, &flat.contents, source, pairs, refusals)?;
    add_unfitted(alloc, types, flat, place, source, actuals, pairs, refusals)
}

// Refuses what can't be of a copy with this body.
fn add_bad_copy_by(
    alloc: Global,
    types: &[TypeDef],
    flat: &FlatData<'_>,
    place: Place,
    body: &TypeBody,
    refusals: &mut Vec<Refusal>,
) -> Result<(), Memory>
    ensures { OnOk result (refusals.new.items ≡ refusals.old.items ++ bad_copy_by types.now flat.now.contents (all_of flat.now) place
        body.now) }
{
    match body {
        TypeBody::Declared {
            place: _,
            imports: _,
            formals: _,
            sorts: _,
            operations: _,
            equations: _,
        } => Ok(()),
        TypeBody::Renamed {
            place: _,
            source,
            pairs,
        } => add_bad_renamed(alloc, types, &flat.contents, source, pairs, refusals),
        TypeBody::Actualized {
            place: _,
            source,
            actuals,
            pairs,
        } => add_bad_actualization(alloc, types, flat, place, source, actuals, pairs, refusals),
    }
}

// Refuses what can't be of a copy.
fn add_bad_copy(
    alloc: Global,
    types: &[TypeDef],
    flat: &FlatData<'_>,
    definition: &TypeDef,
    refusals: &mut Vec<Refusal>,
) -> Result<(), Memory>
    ensures { OnOk result (refusals.new.items ≡ refusals.old.items ++ bad_copy types.now flat.now.contents (all_of flat.now)
        definition.now) }
{
    match definition {
        TypeDef::Library { place: _, names: _ } => Ok(()),
        TypeDef::Definition {
            place: _,
            name,
            body,
        } => add_bad_copy_by(alloc, types, flat, name.place, body, refusals),
    }
}

/// Refuses what can't be of the copies among types, whose contents these are.
pub fn add_bad_copies(
    alloc: Global,
    types: &[TypeDef],
    flat: &FlatData<'_>,
    refusals: &mut Vec<Refusal>,
) -> Result<(), Memory>
    ensures { OnOk result (refusals.new.items ≡ refusals.old.items ++ flat_map (bad_copy types.now flat.now.contents (all_of flat.now))
        types.now) }
{
    for definition in types {
        add_bad_copy(alloc, types, flat, definition, refusals)?;
    }
    Ok(())
}
