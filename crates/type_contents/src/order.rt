// The order in which a type has its items.

ghost use Rattle.std.specs.Prelude.{◌≡◌, [], ◌∷◌, IfOk, OnOk, length, map, slice_index_or, if◌then◌else◌};
ghost use Rattle.std.specs.List.{filter, fold};
ghost use Rattle.type_contents.specs.Lists.{with_one};
ghost use Rattle.type_contents.specs.Items.{is_in, is_same_described};
ghost use Rattle.type_contents.specs.Numbering as numbering;
ghost use Rattle.type_contents.specs.Uses.{number_of};
ghost use Rattle.type_contents.specs.Contents as contents;
ghost use Rattle.type_contents.specs.Views.{item_of, described_of, items_at, AreWithin, parts_at, brought_at};

use crate::contents::Contents;
use crate::described::add_first;
use crate::item::Item;
use crate::item_table::{ItemTable, number_set};
use crate::numbers::number_of;
use crate::own::Declared;
use crate::standing::{Standing, parts_at};
use indexmap::IndexSet;
use lotos_ast::token::Token;
use lotos_ast::types::TypeDef;
use spec_core::memory::Memory;
use std::alloc::Global;

/// What a type brings in.
#[derive(Drop)]
pub struct Brought<'a> {
    /// It, in order.
    pub all: Vec<Declared<'a>>,
}

/// Whether an item is among others. It takes no memory.
pub fn has_item(table: &ItemTable, items: &[usize], item: &Item) -> bool
    requires { AreWithin (length table.now) items.now }
    ensures { result ≡ is_in (items_at table.now items.now) (item_of item.now) }
{
    match items {
        [] => false,
        [first, others @ ..] => {
            item.is_same(table.item(*first)) || has_item(table, others, item)
        }
    }
}

// Adds a description if its item is among these, unless it is described.
fn add_one<'a>(
    alloc: Global,
    all: &mut Vec<Declared<'a>>,
    table: &ItemTable,
    items: &[usize],
    one: &Declared<'a>,
) -> Result<(), Memory>
    requires { AreWithin (length table.now) items.now }
    ensures { OnOk result (map described_of all.new.items ≡ (if is_in (items_at table.now items.now) (described_of one.now).item then
        with_one is_same_described (map described_of all.old.items) (described_of one.now) else map described_of all.old.items)) }
{
    if has_item(table, items, &one.item) {
        add_first(alloc, all, one)
    } else {
        Ok(())
    }
}

// Adds descriptions whose items are among these, each item once.
fn add_all<'a>(
    alloc: Global,
    all: &mut Vec<Declared<'a>>,
    table: &ItemTable,
    items: &[usize],
    entries: &[Declared<'a>],
) -> Result<(), Memory>
    requires { AreWithin (length table.now) items.now }
    ensures { OnOk result (map described_of all.new.items ≡ fold (with_one is_same_described) (map described_of all.old.items)
        (filter (λ d. is_in (items_at table.now items.now) d.item) (map described_of entries.now))) }
{
    for one in entries {
        add_one(alloc, all, table, items, one)?;
    }
    Ok(())
}

// What the type of a number brings in, as far as it is found.
fn brought_at<'f, 'a>(found: &'f [Option<Brought<'a>>], number: usize) -> &'f [Declared<'a>]
    ensures { map described_of result.now ≡ slice_index_or (map brought_at found.now) number [] }
{
    if number < found.len() {
        match &found[number] {
            None => &[],
            Some(brought) => &brought.all,
        }
    } else {
        &[]
    }
}

// Adds what one of the types brings into a content.
fn add_brought<'a>(
    alloc: Global,
    all: &mut Vec<Declared<'a>>,
    table: &ItemTable,
    items: &[usize],
    found: &[Option<Brought<'a>>],
    chosen: &IndexSet<usize>,
    number: usize,
) -> Result<(), Memory>
    requires { AreWithin (length table.now) items.now }
    ensures { OnOk result (map described_of all.new.items ≡ fold (with_one is_same_described) (map described_of all.old.items)
        (numbering.brought_by (map brought_at found.now) chosen.now.keys (items_at table.now items.now) number)) }
{
    if chosen.contains(&number) {
        add_all(alloc, all, table, items, brought_at(found, number))
    } else {
        Ok(())
    }
}

// A content in order.
fn in_order<'a>(
    alloc: Global,
    count: usize,
    table: &ItemTable,
    items: &[usize],
    found: &[Option<Brought<'a>>],
    among: &[usize],
) -> Result<Vec<Declared<'a>>, Memory>
    requires { AreWithin (length table.now) items.now }
    ensures { IfOk result (λ all. map described_of all.items ≡ numbering.in_order count (map brought_at found.now) among.now
        (items_at table.now items.now)) }
{
    let chosen = number_set(alloc, among)?;
    let mut all = Vec::new(alloc);
    for number in 0..count {
        add_brought(alloc, &mut all, table, items, found, &chosen, number)?;
    }
    Ok(all)
}

/// The numbers of a type and of all of which it is made.
pub fn itself_and_parts(
    alloc: Global,
    types: &[TypeDef],
    standings: &[Option<Standing>],
    name: &Token,
) -> Result<Vec<usize>, Memory>
    requires { map parts_at standings.now ≡ numbering.parts types.now }
    ensures { IfOk result (λ all. all.items ≡ numbering.itself_and_parts types.now name.now) }
{
    let number = number_of(types, name);
    let mut all = Vec::new(alloc);
    all.push(number)?;
    all.extend_from_slice(parts_at(standings, number))?;
    Ok(all)
}

/// The content of the type of this name in order.
pub fn source_in_order<'a>(
    alloc: Global,
    types: &[TypeDef],
    made: &Contents,
    standings: &[Option<Standing>],
    found: &[Option<Brought<'a>>],
    source: &Token,
) -> Result<Vec<Declared<'a>>, Memory>
    requires made { made.now ≡ contents.contents types.now }
    requires parts { map parts_at standings.now ≡ numbering.parts types.now }
    ensures { IfOk result (λ all. map described_of all.items ≡ numbering.source_in_order types.now (map brought_at found.now) source.now) }
{
    let among = itself_and_parts(alloc, types, standings, source)?;
    let content = made.of_type(number_of(types, source));
    let all = in_order(
        alloc,
        types.len(),
        content.table,
        content.items,
        found,
        &among,
    )?;
    Ok(all)
}
