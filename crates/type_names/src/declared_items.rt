// Refusals of sorts and operations that are declared twice.

ghost use Rattle.std.specs.Prelude.{◌≡◌, ◌++◌, ◌∷◌, [], List, IfOk, OnOk, map};
ghost use Rattle.std.specs.List.{flat_map};
ghost use Rattle.type_contents.specs.Items.{Described};
ghost use Rattle.type_contents.specs.Views.{item_of, described_of};
ghost use Rattle.type_names.specs.DuplicateNames.{item_twice, declared_by, declared_in, items_twice};
ghost use Rattle.type_names.specs.NameSets.{IsItemSetOf};
ghost use Rattle.type_names.specs.Refused.{each_after};

use crate::item_set::ItemSet;
use crate::refused::refused;
use lotos_ast::place::Place;
use lotos_ast::refusal::{Refusal, RefusalKind};
use lotos_ast::types::{TypeBody, TypeDef};
use spec_core::memory::Memory;
use std::alloc::Global;
use type_contents::item::Item;
use type_contents::own::{Declared, own_items};

// What a type with this body declares.
fn declared_by<'a>(alloc: Global, body: &'a TypeBody) -> Result<Vec<Declared<'a>>, Memory>
    ensures { IfOk result (λ all. map described_of all.items ≡ declared_by body.now) }
{
    match body {
        TypeBody::Declared {
            place: _,
            imports: _,
            formals,
            sorts,
            operations,
            equations: _,
        } => own_items(alloc, formals, sorts, operations),
        TypeBody::Renamed {
            place: _,
            source: _,
            pairs: _,
        } => Ok(Vec::new(alloc)),
        TypeBody::Actualized {
            place: _,
            source: _,
            actuals: _,
            pairs: _,
        } => Ok(Vec::new(alloc)),
    }
}

// What a type declares.
fn declared_in<'a>(alloc: Global, definition: &'a TypeDef) -> Result<Vec<Declared<'a>>, Memory>
    ensures { IfOk result (λ all. map described_of all.items ≡ declared_in definition.now) }
{
    match definition {
        TypeDef::Library { place: _, names: _ } => Ok(Vec::new(alloc)),
        TypeDef::Definition {
            place: _,
            name: _,
            body,
        } => declared_by(alloc, body),
    }
}

// Adds further declarations.
fn add_all<'a>(all: &mut Vec<Declared<'a>>, more: Vec<Declared<'a>>) -> Result<(), Memory>
    ensures { OnOk result (all.new.items ≡ all.old.items ++ more.entry.items) }
{
    for declared in more {
        all.push(declared)?;
    }
    Ok(())
}

// What types declare.
fn all_declared<'a>(alloc: Global, types: &'a [TypeDef]) -> Result<Vec<Declared<'a>>, Memory>
    ensures { IfOk result (λ all. map described_of all.items ≡ flat_map declared_in types.now) }
{
    let mut all = Vec::new(alloc);
    for definition in types {
        add_all(&mut all, declared_in(alloc, definition)?)?;
    }
    Ok(all)
}

// Refuses an item that is among those before it, and adds it to these.
#[tactic(auto, using(crate::proofs::Sets::one_more_item))]
fn add_item_twice(
    alloc: Global,
    before: &mut ItemSet,
    item: Item,
    place: Place,
    refusals: &mut Vec<Refusal>,
) -> Result<(), Memory>
    ensures refusals { OnOk result ((ds : List Described) (d : Described) → IsItemSetOf before.old ds → d.item ≡ item_of item
        → d.place ≡ place → refusals.new.items ≡ refusals.old.items ++ item_twice ds d) }
    ensures before { OnOk result ((ds : List Described) (d : Described) → IsItemSetOf before.old ds → d.item ≡ item_of item
        → IsItemSetOf before.new (ds ++ d ∷ [])) }
{
    if !before.add(item)? {
        refusals.push(refused(alloc, RefusalKind::DuplicateName, place))?;
    }
    Ok(())
}

// Refuses those of the items that are declared among those before them.
fn add_each_item_twice(
    alloc: Global,
    all: Vec<Declared<'_>>,
    refusals: &mut Vec<Refusal>,
) -> Result<(), Memory>
    ensures { OnOk result (refusals.new.items ≡ refusals.old.items ++ each_after item_twice [] (map described_of all.entry.items)) }
{
    let mut before = ItemSet::new(alloc);
    for declared in all {
        add_item_twice(alloc, &mut before, declared.item, declared.place, refusals)?;
    }
    Ok(())
}

/// Refuses the sorts and operations that are declared before.
pub fn add_items_twice(
    alloc: Global,
    types: &[TypeDef],
    refusals: &mut Vec<Refusal>,
) -> Result<(), Memory>
    ensures { OnOk result (refusals.new.items ≡ refusals.old.items ++ items_twice types.now) }
{
    let all = all_declared(alloc, types)?;
    add_each_item_twice(alloc, all, refusals)
}
