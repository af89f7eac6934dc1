// What contents are put together from.

ghost use Rattle.std.specs.Prelude.{◌≡◌, ◌++◌, ◌<◌, Some, IfOk, OnOk, drop, length, map, take, slice_index_or};
ghost use Rattle.std.specs.List.{flat_map};
ghost use Rattle.type_contents.specs.Linked as by_number;
ghost use Rattle.type_contents.specs.Items as items;
ghost use Rattle.type_contents.specs.Images as images;
ghost use Rattle.type_contents.specs.Own as own;
ghost use Rattle.type_contents.specs.Contents as contents;
ghost use Rattle.type_contents.specs.Views.{item_of, described_of, renaming_view, items_at, no_item, AreWithin};
ghost use Rattle.type_contents.specs.Views.{content_at, made_at, IsMadeWithin, AreMadeWithin, ArePartsWithin, gathered};

use crate::images::{Renaming, image, kept_image};
use crate::item::Item;
use crate::item_table::ItemTable;
use crate::numbers::{Numbers, formals_of_all, items_of_all, made_formals, made_items};
use crate::own::{Declared, own_formals, own_items};
use lotos_ast::types::{Formals, OperationPart, Pairs, SortPart, TypeBody, TypeDef};
use spec_core::memory::Memory;
use std::alloc::Global;

/// What a content is put together from: items of a table, and further items.
#[derive(Drop)]
pub struct Parts {
    /// Numbers of items that it has.
    pub items: Vec<usize>,
    /// Further items that it has.
    pub more_items: Vec<Item>,
    /// Numbers of items that are left open.
    pub formals: Vec<usize>,
    /// Further items that are left open.
    pub more_formals: Vec<Item>,
}

// The items that are declared.
fn items_declared(alloc: Global, declared: Vec<Declared<'_>>) -> Result<Vec<Item>, Memory>
    ensures { IfOk result (λ all. map item_of all.items ≡ map items.item_of (map described_of declared.entry.items)) }
{
    let mut all = Vec::new(alloc);
    for one in declared {
        all.push(one.item)?;
    }
    Ok(all)
}

// The images of items.
fn images(
    alloc: Global,
    table: &ItemTable,
    renaming: &Renaming<'_>,
    numbers: &[usize],
) -> Result<Vec<Item>, Memory>
    requires { AreWithin (length table.now) numbers.now }
    ensures { IfOk result (λ all. map item_of all.items ≡ map (images.image (renaming_view renaming.now))
        (items_at table.now numbers.now)) }
{
    let mut all = Vec::new(alloc);
    for number in numbers {
        all.push(image(alloc, renaming, table.item(*number))?)?;
    }
    Ok(all)
}

// Adds what is kept of an item where the formal ones are replaced.
fn add_kept(
    alloc: Global,
    all: &mut Vec<Item>,
    table: &ItemTable,
    formals: &[usize],
    renaming: &Renaming<'_>,
    number: usize,
) -> Result<(), Memory>
    requires formals { AreWithin (length table.now) formals.now }
    requires number { number < length table.now }
    ensures { OnOk result (map item_of all.new.items ≡ map item_of all.old.items ++ contents.kept_one (items_at table.now formals.now)
        (renaming_view renaming.now) (slice_index_or table.now number no_item)) }
{
    if table.is_in(formals, number) {
        return Ok(());
    }
    all.push(kept_image(alloc, table, formals, renaming, table.item(number))?)?;
    Ok(())
}

// What is kept of items where the formal ones are replaced.
fn kept(
    alloc: Global,
    table: &ItemTable,
    numbers: &[usize],
    formals: &[usize],
    renaming: &Renaming<'_>,
) -> Result<Vec<Item>, Memory>
    requires numbers { AreWithin (length table.now) numbers.now }
    requires formals { AreWithin (length table.now) formals.now }
    ensures { IfOk result (λ all. map item_of all.items ≡ flat_map (contents.kept_one (items_at table.now formals.now)
        (renaming_view renaming.now)) (items_at table.now numbers.now)) }
{
    let mut all = Vec::new(alloc);
    for number in numbers {
        add_kept(alloc, &mut all, table, formals, renaming, *number)?;
    }
    Ok(all)
}

// What a type has that is made by what it imports and what it declares.
fn declared_parts(
    alloc: Global,
    table: &ItemTable,
    made: &[Option<Numbers>],
    linked: &[usize],
    formals: &Formals,
    sorts: &Option<SortPart>,
    operations: &Option<OperationPart>,
) -> Result<Parts, Memory>
    requires { AreMadeWithin (length table.now) made.now }
    ensures items { IfOk result (λ p. gathered table.now p.items p.more_items ≡ flat_map
        (by_number.items_at_number (map (made_at table.now) made.now)) linked.now ++ map items.item_of
        (own.own_items formals.now sorts.now operations.now)) }
    ensures formals { IfOk result (λ p. gathered table.now p.formals p.more_formals
        ≡ flat_map (by_number.formals_at_number (map (made_at table.now) made.now)) linked.now
        ++ map items.item_of (own.own_formals formals.now)) }
    ensures within { IfOk result (ArePartsWithin (length table.now)) }
{
    let _ = table.len();
    Ok(Parts {
        items: items_of_all(alloc, made, linked)?,
        more_items: items_declared(alloc, own_items(alloc, formals, sorts, operations)?)?,
        formals: formals_of_all(alloc, made, linked)?,
        more_formals: items_declared(alloc, own_formals(alloc, formals)?)?,
    })
}

// What a copy with new names has.
fn renamed_parts(
    alloc: Global,
    table: &ItemTable,
    made: &[Option<Numbers>],
    source: usize,
    pairs: &Pairs,
) -> Result<Parts, Memory>
    requires { AreMadeWithin (length table.now) made.now }
    ensures items { IfOk result (λ p. gathered table.now p.items p.more_items ≡ map (images.image (images.renaming_of pairs.now))
        (by_number.items_at_number (map (made_at table.now) made.now) source)) }
    ensures formals { IfOk result (λ p. gathered table.now p.formals p.more_formals
        ≡ map (images.image (images.renaming_of pairs.now)) (by_number.formals_at_number (map (made_at table.now) made.now) source)) }
    ensures within { IfOk result (ArePartsWithin (length table.now)) }
{
    let renaming = Renaming::of(alloc, pairs)?;
    Ok(Parts {
        items: Vec::new(alloc),
        more_items: images(alloc, table, &renaming, made_items(made, source))?,
        formals: Vec::new(alloc),
        more_formals: images(alloc, table, &renaming, made_formals(made, source))?,
    })
}

// What a copy has whose formal items are replaced.
fn actualized_parts(
    alloc: Global,
    table: &ItemTable,
    made: &[Option<Numbers>],
    source: usize,
    actuals: &[usize],
    pairs: &Pairs,
) -> Result<Parts, Memory>
    requires { AreMadeWithin (length table.now) made.now }
    ensures items { IfOk result (λ p. gathered table.now p.items p.more_items ≡ flat_map
        (by_number.items_at_number (map (made_at table.now) made.now)) actuals.now ++ contents.kept
        (slice_index_or (map (made_at table.now) made.now) source contents.no_content) (images.renaming_of pairs.now)) }
    ensures formals { IfOk result (λ p. gathered table.now p.formals p.more_formals
        ≡ flat_map (by_number.formals_at_number (map (made_at table.now) made.now)) actuals.now) }
    ensures within { IfOk result (ArePartsWithin (length table.now)) }
{
    let renaming = Renaming::of(alloc, pairs)?;
    let copied = made_items(made, source);
    let open = made_formals(made, source);
    Ok(Parts {
        items: items_of_all(alloc, made, actuals)?,
        more_items: kept(alloc, table, copied, open, &renaming)?,
        formals: formals_of_all(alloc, made, actuals)?,
        more_formals: Vec::new(alloc),
    })
}

// The source of a copy: the first of the types of which it is made.
fn source_of(linked: &[usize]) -> usize
    ensures { result ≡ by_number.source_of linked.now }
{
    match linked {
        [] => 0,
        [first, ..] => *first,
    }
}

// The actual types of a copy: the others of which it is made.
fn actuals_of(linked: &[usize]) -> &[usize]
    ensures { result.now ≡ drop 1 linked.now }
{
    match linked {
        [] => &[],
        [_, others @ ..] => others,
    }
}

// What a type has by how it is made.
fn parts_of(
    alloc: Global,
    table: &ItemTable,
    made: &[Option<Numbers>],
    body: &TypeBody,
    linked: &[usize],
) -> Result<Parts, Memory>
    requires { AreMadeWithin (length table.now) made.now }
    ensures items { IfOk result (λ p. gathered table.now p.items p.more_items ≡ by_number.items_linked
        (map (made_at table.now) made.now) linked.now body.now) }
    ensures formals { IfOk result (λ p. gathered table.now p.formals p.more_formals
        ≡ by_number.formals_linked (map (made_at table.now) made.now) linked.now body.now) }
    ensures within { IfOk result (ArePartsWithin (length table.now)) }
{
    match body {
        TypeBody::Declared {
            place: _,
            imports: _,
            formals,
            sorts,
            operations,
            equations: _,
        } => declared_parts(alloc, table, made, linked, formals, sorts, operations),
        TypeBody::Renamed {
            place: _,
            source: _,
            pairs,
        } => renamed_parts(alloc, table, made, source_of(linked), pairs),
        TypeBody::Actualized {
            place: _,
            source: _,
            actuals: _,
            pairs,
        } => actualized_parts(
            alloc,
            table,
            made,
            source_of(linked),
            actuals_of(linked),
            pairs,
        ),
    }
}

// Items of a table and further ones, each once.
fn united(
    alloc: Global,
    table: &mut ItemTable,
    numbers: Vec<usize>,
    more: Vec<Item>,
) -> Result<Vec<usize>, Memory>
    requires { AreWithin (length table.old) numbers.items }
    ensures kept { take (length table.old) table.new ≡ table.old }
    ensures items { IfOk result (λ all. items_at table.new all.items ≡ items.union (gathered table.old numbers more)) }
    ensures within { IfOk result (λ all. AreWithin (length table.new) all.items) }
{
    let further = table.numbers(alloc, more)?;
    let mut all = numbers;
    all.extend_from_slice(&further)?;
    let united = table.union(alloc, &all)?;
    Ok(united)
}

// The content of these parts, each item once.
fn put_together(alloc: Global, table: &mut ItemTable, parts: Parts) -> Result<Numbers, Memory>
    requires { ArePartsWithin (length table.old) parts }
    ensures kept { take (length table.old) table.new ≡ table.old }
    ensures items { IfOk result (λ n. items_at table.new n.items.items ≡ items.union (gathered table.old parts.items parts.more_items)) }
    ensures formals { IfOk result (λ n. items_at table.new n.formals.items ≡ items.union
        (gathered table.old parts.formals parts.more_formals)) }
    ensures within { IfOk result (λ n. IsMadeWithin (length table.new) (Some n)) }
{
    let items = united(alloc, table, parts.items, parts.more_items)?;
    let formals = united(alloc, table, parts.formals, parts.more_formals)?;
    Ok(Numbers { items, formals })
}

// What a type has by how it is made, each item once.
fn made_by(
    alloc: Global,
    table: &mut ItemTable,
    made: &[Option<Numbers>],
    body: &TypeBody,
    linked: &[usize],
) -> Result<Numbers, Memory>
    requires { AreMadeWithin (length table.old) made.now }
    ensures kept { take (length table.old) table.new ≡ table.old }
    ensures items { IfOk result (λ n. items_at table.new n.items.items ≡ items.union
        (by_number.items_linked (map (made_at table.old) made.now) linked.now body.now)) }
    ensures formals { IfOk result (λ n. items_at table.new n.formals.items ≡ items.union
        (by_number.formals_linked (map (made_at table.old) made.now) linked.now body.now)) }
    ensures within { IfOk result (λ n. IsMadeWithin (length table.new) (Some n)) }
{
    let parts = parts_of(alloc, table, made, body, linked)?;
    put_together(alloc, table, parts)
}

/// What a type has that is made of the types of these numbers, where each of those has what is made of it.
pub fn made_from(
    alloc: Global,
    table: &mut ItemTable,
    made: &[Option<Numbers>],
    definition: &TypeDef,
    linked: &[usize],
) -> Result<Numbers, Memory>
    requires { AreMadeWithin (length table.old) made.now }
    ensures kept { take (length table.old) table.new ≡ table.old }
    ensures content { IfOk result (λ n. content_at table.new n ≡ by_number.made_linked (map (made_at table.old) made.now) linked.now
        definition.now) }
    ensures within { IfOk result (λ n. IsMadeWithin (length table.new) (Some n)) }
{
    match definition {
        TypeDef::Library { place: _, names: _ } => Ok(Numbers {
            items: Vec::new(alloc),
            formals: Vec::new(alloc),
        }),
        TypeDef::Definition {
            place: _,
            name: _,
            body,
        } => made_by(alloc, table, made, body, linked),
    }
}
