// New numbers of sorts and operations in copies.

ghost use Rattle.std.specs.Prelude.{◌≡◌, List, IfOk, map, length};
ghost use Rattle.std.specs.List.{position_or_len};
ghost use Rattle.lotos_ast.specs.declared.types.TypeDef.{TypeDef};
ghost use Rattle.type_contents.specs.Items as items;
ghost use Rattle.type_contents.specs.Items.{is_same_item};
ghost use Rattle.type_contents.specs.Views.{item_of, described_of, items_at, renaming_view, AreWithin};
ghost use Rattle.type_images.specs.Views.{numbers_of};
ghost use Rattle.type_equation_copies.specs.Copies as copies;
ghost use Rattle.type_contents.specs.Numbering.{all_sorts, all_operations};
ghost use Rattle.type_equation_copies.specs.Indexes.{IsIndexOf, items_in};
ghost use Rattle.type_equation_copies.specs.Views.{AreNumbersOf};

use crate::item_index::ItemIndex;
use lotos_ast::types::Pairs;
use spec_core::memory::Memory;
use std::alloc::Global;
use type_contents::flat::FlatData;
use type_contents::images::{Renaming, image, kept_image};
use type_contents::item::Item;
use type_contents::item_table::ItemTable;
use type_contents::order::has_item;
use type_contents::own::Declared;
use type_images::numbers::Renumbering;

/// The numbers of all sorts and operations.
#[derive(Drop)]
pub struct ItemNumbers<'f, 'a> {
    /// The sorts, in the order of their numbers.
    pub sorts: &'f [Declared<'a>],
    /// The operations, in the order of their numbers.
    pub operations: &'f [Declared<'a>],
    sort_index: ItemIndex<'f>,
    operation_index: ItemIndex<'f>,
}

/// A number of 32 bits. It wants memory where the number isn't one.
pub fn small_number(number: usize) -> Result<u32, Memory>
    ensures { IfOk result (λ n. n ≡ number) }
{
    if number < 4_294_967_296 {
        Ok(number as u32)
    } else {
        Err(Memory)
    }
}

// The image of an item in a copy in which these are replaced.
fn image_in(
    alloc: Global,
    table: &ItemTable,
    replaced: &[usize],
    renaming: &Renaming<'_>,
    item: &Item,
) -> Result<Item, Memory>
    requires { AreWithin (length table.now) replaced.now }
    ensures { IfOk result (λ x. item_of x ≡ copies.image_in (items_at table.now replaced.now) (renaming_view renaming.now)
        (item_of item.now)) }
{
    if has_item(table, replaced, item) {
        image(alloc, renaming, item)
    } else {
        kept_image(alloc, table, replaced, renaming, item)
    }
}

// The number of the image of an item.
fn image_number(
    alloc: Global,
    index: &ItemIndex<'_>,
    table: &ItemTable,
    replaced: &[usize],
    renaming: &Renaming<'_>,
    item: &Item,
) -> Result<u32, Memory>
    requires { AreWithin (length table.now) replaced.now }
    ensures { IfOk result (λ n. (items : List items.Item) → IsIndexOf index.now items → n ≡ position_or_len
        (is_same_item (copies.image_in (items_at table.now replaced.now) (renaming_view renaming.now) (item_of item.now))) items) }
{
    let image = image_in(alloc, table, replaced, renaming, item)?;
    small_number(index.number(&image))
}

// Of each item the number of its image among all.
fn image_numbers(
    alloc: Global,
    index: &ItemIndex<'_>,
    table: &ItemTable,
    replaced: &[usize],
    renaming: &Renaming<'_>,
    described: &[Declared<'_>],
) -> Result<Vec<u32>, Memory>
    requires { AreWithin (length table.now) replaced.now }
    ensures { IfOk result (λ all. (among : List items.Described) → IsIndexOf index.now (items_in among) → all.items
        ≡ copies.image_numbers among (copies.image_in (items_at table.now replaced.now) (renaming_view renaming.now))
        (map described_of described.now)) }
{
    let mut all = Vec::new(alloc);
    for one in described {
        all.push(image_number(alloc, index, table, replaced, renaming, &one.item)?)?;
    }
    Ok(all)
}

impl<'f, 'a> ItemNumbers<'f, 'a> {
    /// The numbers of all that types come to.
    pub fn of(alloc: Global, flat: &'f FlatData<'a>) -> Result<ItemNumbers<'f, 'a>, Memory>
        ensures { IfOk result (λ n. (types : List TypeDef) → map described_of flat.now.sorts.items ≡ all_sorts types
            → map described_of flat.now.operations.items ≡ all_operations types → AreNumbersOf types n) }
    {
        Ok(ItemNumbers {
            sorts: &flat.sorts,
            operations: &flat.operations,
            sort_index: ItemIndex::of_described(alloc, &flat.sorts)?,
            operation_index: ItemIndex::of_described(alloc, &flat.operations)?,
        })
    }

    /// The new numbers of all sorts and operations in a copy in which these items are replaced.
    pub fn in_copy(
        &self,
        alloc: Global,
        table: &ItemTable,
        replaced: &[usize],
        pairs: &Pairs,
    ) -> Result<Renumbering, Memory>
        requires { AreWithin (length table.now) replaced.now }
        ensures { IfOk result (λ r. (types : List TypeDef) → AreNumbersOf types self.now → numbers_of r ≡ copies.copy_numbers types
            (items_at table.now replaced.now) pairs.now) }
    {
        let renaming = Renaming::of(alloc, pairs)?;
        Ok(Renumbering {
            sorts: image_numbers(
                alloc,
                &self.sort_index,
                table,
                replaced,
                &renaming,
                self.sorts,
            )?,
            operations: image_numbers(
                alloc,
                &self.operation_index,
                table,
                replaced,
                &renaming,
                self.operations,
            )?,
        })
    }
}
