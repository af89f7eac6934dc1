// The sorts and operations of all types, in the order of their numbers.

ghost use Rattle.std.specs.Prelude.{◌≡◌, ◌++◌, [], not, IfOk, OnOk, map};
ghost use Rattle.std.specs.List.{filter, flat_map, fold};
ghost use Rattle.type_contents.specs.Lists.{with_one};
ghost use Rattle.type_contents.specs.Items.{is_sort, is_same_described, firsts};
ghost use Rattle.type_contents.specs.Numbering as numbering;
ghost use Rattle.type_contents.specs.Contents as contents;
ghost use Rattle.type_contents.specs.FormalTypes as formal;
ghost use Rattle.type_contents.specs.Views.{described_of, brought_at, formal_at, AreItemsOf};

use crate::brought::all_brought;
use crate::contents::{Contents, contents_of};
use crate::described::{copied, copied_item};
use crate::item::Item;
use crate::item_kind::ItemKind;
use crate::order::Brought;
use crate::own::Declared;
use crate::standing::{Standing, standings_of};
use indexmap::IndexSet;
use lotos_ast::types::TypeDef;
use spec_core::memory::Memory;
use std::alloc::Global;

/// What a list of types comes to.
#[derive(Drop)]
pub struct FlatData<'a> {
    /// The types themselves: how each is made, and its own equations, which aren't read yet.
    pub types: &'a [TypeDef],
    /// The sorts of all types, in the order of their numbers.
    pub sorts: Vec<Declared<'a>>,
    /// The operations of all types, in the order of their numbers.
    pub operations: Vec<Declared<'a>>,
    /// What each type has.
    pub contents: Contents,
    /// Of each type whether it is formal, and so not part of the data.
    pub formal: Vec<bool>,
}

// Adds a description, unless its item is among those that are found.
fn add_new<'a>(
    alloc: Global,
    all: &mut Vec<Declared<'a>>,
    found: &mut IndexSet<Item>,
    one: &Declared<'a>,
) -> Result<(), Memory>
    requires { AreItemsOf found.old.keys (map described_of all.old.items) }
    ensures all { OnOk result (map described_of all.new.items ≡ with_one is_same_described (map described_of all.old.items)
        (described_of one.now)) }
    ensures found { OnOk result (AreItemsOf found.new.keys (map described_of all.new.items)) }
{
    let item = copied_item(alloc, &one.item)?;
    if found.insert(item)? {
        all.push(copied(alloc, one)?)?;
    }
    Ok(())
}

// Adds descriptions, each item once.
fn add_firsts<'a>(
    alloc: Global,
    all: &mut Vec<Declared<'a>>,
    found: &mut IndexSet<Item>,
    entries: &[Declared<'a>],
) -> Result<(), Memory>
    requires { AreItemsOf found.old.keys (map described_of all.old.items) }
    ensures all { OnOk result (map described_of all.new.items ≡ fold (with_one is_same_described) (map described_of all.old.items)
        (map described_of entries.now)) }
    ensures found { OnOk result (AreItemsOf found.new.keys (map described_of all.new.items)) }
{
    for one in entries {
        add_new(alloc, all, found, one)?;
    }
    Ok(())
}

// Adds what a type brings in, each item once.
fn add_brought<'a>(
    alloc: Global,
    all: &mut Vec<Declared<'a>>,
    found: &mut IndexSet<Item>,
    brought: &Option<Brought<'a>>,
) -> Result<(), Memory>
    requires { AreItemsOf found.old.keys (map described_of all.old.items) }
    ensures all { OnOk result (map described_of all.new.items ≡ fold (with_one is_same_described) (map described_of all.old.items)
        (brought_at brought.now)) }
    ensures found { OnOk result (AreItemsOf found.new.keys (map described_of all.new.items)) }
{
    match brought {
        None => Ok(()),
        Some(some) => add_firsts(alloc, all, found, &some.all),
    }
}

// What types bring in, each item once.
fn all_items<'a>(
    alloc: Global,
    brought: &[Option<Brought<'a>>],
) -> Result<Vec<Declared<'a>>, Memory>
    ensures { IfOk result (λ all. map described_of all.items ≡ firsts (flat_map (λ all. all) (map brought_at brought.now))) }
{
    let mut all = Vec::new(alloc);
    let mut found = IndexSet::new(alloc);
    for one in brought {
        add_brought(alloc, &mut all, &mut found, one)?;
    }
    Ok(all)
}

// Whether a description is of a sort.
fn is_sort(one: &Declared<'_>) -> bool
    ensures { result ≡ is_sort (described_of one.now).item }
{
    one.item.kind.is_same(ItemKind::Sort)
}

// Sorts, and operations.
fn by_kind<'a>(
    alloc: Global,
    all: Vec<Declared<'a>>,
) -> Result<(Vec<Declared<'a>>, Vec<Declared<'a>>), Memory>
    ensures sorts { IfOk result (λ r. map described_of r.0.items ≡ filter (λ d. is_sort d.item) (map described_of all.entry.items)) }
    ensures operations { IfOk result (λ r. map described_of r.1.items ≡ filter (λ d. not (is_sort d.item))
        (map described_of all.entry.items)) }
{
    let mut sorts = Vec::new(alloc);
    let mut operations = Vec::new(alloc);
    for one in all {
        if is_sort(&one) {
            sorts.push(one)?;
        } else {
            operations.push(one)?;
        }
    }
    Ok((sorts, operations))
}

// Of each type whether it is formal.
fn formal_types(alloc: Global, standings: &[Option<Standing>]) -> Result<Vec<bool>, Memory>
    ensures { IfOk result (λ all. all.items ≡ map formal_at standings.now) }
{
    let mut all = Vec::new(alloc);
    for standing in standings {
        all.push(match standing {
            None => false,
            Some(found) => found.formal,
        })?;
    }
    Ok(all)
}

/// What a list of types comes to whose contents are made.
pub fn flat_from<'a>(
    alloc: Global,
    types: &'a [TypeDef],
    made: Contents,
) -> Result<FlatData<'a>, Memory>
    requires { made ≡ contents.contents types.now }
    ensures types { IfOk result (λ flat. flat.types.now ≡ types.now) }
    ensures sorts { IfOk result (λ flat. map described_of flat.sorts.items ≡ numbering.all_sorts types.now) }
    ensures operations { IfOk result (λ flat. map described_of flat.operations.items ≡ numbering.all_operations types.now) }
    ensures contents { IfOk result (λ flat. flat.contents ≡ contents.contents types.now) }
    ensures formal { IfOk result (λ flat. flat.formal.items ≡ formal.formal_types types.now) }
{
    let standings = standings_of(alloc, types)?;
    let brought = all_brought(alloc, types, &made, &standings)?;
    let (sorts, operations) = by_kind(alloc, all_items(alloc, &brought)?)?;
    let formal = formal_types(alloc, &standings)?;
    Ok(FlatData {
        types,
        sorts,
        operations,
        contents: made,
        formal,
    })
}

/// What a list of types comes to, whatever is refused of it. An unknown type has nothing.
pub fn flat_of<'a>(alloc: Global, types: &'a [TypeDef]) -> Result<FlatData<'a>, Memory>
    ensures types { IfOk result (λ flat. flat.types.now ≡ types.now) }
    ensures sorts { IfOk result (λ flat. map described_of flat.sorts.items ≡ numbering.all_sorts types.now) }
    ensures operations { IfOk result (λ flat. map described_of flat.operations.items ≡ numbering.all_operations types.now) }
    ensures contents { IfOk result (λ flat. flat.contents ≡ contents.contents types.now) }
    ensures formal { IfOk result (λ flat. flat.formal.items ≡ formal.formal_types types.now) }
{
    let made = contents_of(alloc, types)?;
    flat_from(alloc, types, made)
}
