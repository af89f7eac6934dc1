// Copies of types under new names.

ghost use Rattle.std.specs.Prelude.{◌≡◌, ◌<◌, [], IfOk, length, map, slice_index_or};
ghost use Rattle.std.specs.Cmp.Lexicographic.{pointwise};
ghost use Rattle.std.specs.Str.{bytes_eq};
ghost use Rattle.type_contents.specs.Items.{is_in};
ghost use Rattle.type_contents.specs.Items as items;
ghost use Rattle.type_contents.specs.Images as images;
ghost use Rattle.type_contents.specs.Own.{sort_item};
ghost use Rattle.type_contents.specs.Views.{item_of, items_at, no_item, AreWithin, renaming_view, new_operation_of};
ghost use Rattle.type_copies.specs.Copies as copies;
ghost use Rattle.type_copies.specs.Views.{item_at, change_of, copy_view};

use lotos_ast::types::Pairs;
use spec_core::memory::Memory;
use std::alloc::Global;
use type_contents::images::{NewOperation, Renaming, kept_image};
use type_contents::item::Item;
use type_contents::item_kind::ItemKind;
use type_contents::item_table::ItemTable;

/// An item and what becomes of it.
#[derive(Drop)]
pub struct Change<'a> {
    /// The item.
    pub item: &'a Item,
    /// What becomes of it.
    pub image: Item,
}

/// A copy of a type under new names.
#[derive(Drop)]
pub struct TypeCopy<'a> {
    /// The items that are copied.
    pub changes: Vec<Change<'a>>,
    /// Those that are replaced by items of other types, and so get no new name.
    pub replaced: Vec<&'a Item>,
    /// The new names.
    pub renaming: Renaming<'a>,
}

/// Items by their numbers in a table.
pub fn items_at<'a>(
    alloc: Global,
    table: &'a ItemTable,
    numbers: &[usize],
) -> Result<Vec<&'a Item>, Memory>
    requires { AreWithin (length table.now) numbers.now }
    ensures { IfOk result (λ all. map item_at all.items ≡ items_at table.now numbers.now) }
{
    let mut all = Vec::new(alloc);
    for number in numbers {
        all.push(table.item(*number))?;
    }
    Ok(all)
}

// What becomes of an item.
fn changed<'a>(
    alloc: Global,
    table: &'a ItemTable,
    replaced: &[usize],
    renaming: &Renaming<'_>,
    number: usize,
) -> Result<Change<'a>, Memory>
    requires replaced { AreWithin (length table.now) replaced.now }
    requires number { number < length table.now }
    ensures { IfOk result (λ c. change_of c ≡ copies.change_in (items_at table.now replaced.now) (renaming_view renaming.now)
        (slice_index_or table.now number no_item)) }
{
    let item = table.item(number);
    Ok(Change {
        item,
        image: kept_image(alloc, table, replaced, renaming, item)?,
    })
}

// What becomes of items.
fn changes<'a>(
    alloc: Global,
    table: &'a ItemTable,
    replaced: &[usize],
    renaming: &Renaming<'_>,
    numbers: &[usize],
) -> Result<Vec<Change<'a>>, Memory>
    requires replaced { AreWithin (length table.now) replaced.now }
    requires numbers { AreWithin (length table.now) numbers.now }
    ensures { IfOk result (λ all. map change_of all.items ≡ map (copies.change_in (items_at table.now replaced.now)
        (renaming_view renaming.now)) (items_at table.now numbers.now)) }
{
    let mut all = Vec::new(alloc);
    for number in numbers {
        all.push(changed(alloc, table, replaced, renaming, *number)?)?;
    }
    Ok(all)
}

/// A copy of these items, of which some are replaced, under the new names that pairs give.
pub fn copy_of<'a>(
    alloc: Global,
    table: &'a ItemTable,
    items: &[usize],
    replaced: &[usize],
    pairs: &'a Pairs,
) -> Result<TypeCopy<'a>, Memory>
    requires items { AreWithin (length table.now) items.now }
    requires replaced { AreWithin (length table.now) replaced.now }
    ensures { IfOk result (λ c. copy_view c ≡ copies.copy (items_at table.now items.now) (items_at table.now replaced.now)
        (images.renaming_of pairs.now)) }
{
    let renaming = Renaming::of(alloc, pairs)?;
    Ok(TypeCopy {
        changes: changes(alloc, table, replaced, &renaming, items)?,
        replaced: items_at(alloc, table, replaced)?,
        renaming,
    })
}

/// Whether an item is among others. It takes no memory.
pub fn is_in(items: &[&Item], item: &Item) -> bool
    ensures { result ≡ is_in (map item_at items.now) (item_of item.now) }
{
    match items {
        [] => false,
        [first, others @ ..] => item.is_same(first) || is_in(others, item),
    }
}

// Whether an item has no sorts of arguments and of a result.
fn has_no_sorts(item: &Item) -> bool
    ensures { result ≡ pointwise bytes_eq [] (item_of item.now).sorts }
{
    match item.sorts.as_slice() {
        [] => true,
        [_, ..] => false,
    }
}

/// Whether an item is the sort of this name. It takes no memory.
pub fn is_sort_named(item: &Item, name: &str) -> bool
    ensures { result ≡ items.is_same_item (sort_item name.now) (item_of item.now) }
{
    ItemKind::Sort.is_same(item.kind) && name == item.name.as_str() && has_no_sorts(item)
}

/// Whether the sort of this name is among items. It takes no memory.
pub fn is_sort_in(items: &[&Item], name: &str) -> bool
    ensures { result ≡ is_in (map item_at items.now) (sort_item name.now) }
{
    match items {
        [] => false,
        [first, others @ ..] => is_sort_named(first, name) || is_sort_in(others, name),
    }
}

// Whether one of these items has the kind and the name of another.
fn has_formal_name(items: &[&Item], item: &Item) -> bool
    ensures { result ≡ images.has_formal_name (map item_at items.now) (item_of item.now) }
{
    match items {
        [] => false,
        [first, others @ ..] => item.has_same_name(first) || has_formal_name(others, item),
    }
}

/// Whether a new name is for an operation. It takes no memory.
pub fn renames(item: &Item, new: &NewOperation<'_>) -> bool
    ensures { result ≡ images.renames (item_of item.now) (new_operation_of new.now) }
{
    new.old_kind.is_same(item.kind) && new.old.as_str() == item.name.as_str()
}

impl TypeCopy<'_> {
    /// Whether an operation gets this new name. It takes no memory.
    pub fn gets(&self, new: &NewOperation<'_>, item: &Item) -> bool
        ensures { result ≡ copies.gets (copy_view self.now) (new_operation_of new.now) (item_of item.now) }
    {
        renames(item, new) && !has_formal_name(&self.replaced, item)
    }
}

/// Whether an operation gets one of these new names. It takes no memory.
pub fn gets_any(copy: &TypeCopy<'_>, news: &[NewOperation<'_>], item: &Item) -> bool
    ensures { result ≡ copies.gets_any (copy_view copy.now) (map new_operation_of news.now) (item_of item.now) }
{
    match news {
        [] => false,
        [first, others @ ..] => copy.gets(first, item) || gets_any(copy, others, item),
    }
}
