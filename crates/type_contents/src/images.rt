// Images of items under new names.

ghost use Rattle.std.specs.Prelude.{◌≡◌, IfOk, length, map, string_bytes, option_map};
ghost use Rattle.type_contents.specs.Images as images;
ghost use Rattle.type_contents.specs.Lists.{listed};
ghost use Rattle.type_contents.specs.Views.{item_of, new_sort_of, new_operation_of, renaming_by, renaming_view, items_at, AreWithin};

use crate::item::{Item, small};
use crate::item_kind::ItemKind;
use crate::item_table::ItemTable;
use crate::own::{kind_of, name_of};
use lotos_ast::token::Token;
use lotos_ast::types::{OperationPair, Pairs, SortPair};
use spec_core::memory::Memory;
use std::alloc::Global;

/// A new name for a sort.
#[derive(Drop)]
pub struct NewSort<'a> {
    /// The old name, in small letters.
    pub old: String,
    /// The new name, in small letters.
    pub new: String,
    /// The new name as it is written.
    pub spelled: &'a Token,
}

/// A new name for operations.
#[derive(Drop)]
pub struct NewOperation<'a> {
    /// Where the old operations stand.
    pub old_kind: ItemKind,
    /// The old name, in small letters.
    pub old: String,
    /// Where the new operations stand.
    pub new_kind: ItemKind,
    /// The new name, in small letters.
    pub new: String,
    /// The new name as it is written.
    pub spelled: &'a Token,
}

/// New names for items.
#[derive(Drop)]
pub struct Renaming<'a> {
    /// Of sorts.
    pub sorts: Vec<NewSort<'a>>,
    /// Of operations.
    pub operations: Vec<NewOperation<'a>>,
}

/// What a pair of sorts says.
pub fn new_sort<'a>(alloc: Global, pair: &'a SortPair) -> Result<NewSort<'a>, Memory>
    ensures { IfOk result (λ n. new_sort_of n ≡ images.new_sort pair.now) }
{
    Ok(NewSort {
        old: small(alloc, &pair.old)?,
        new: small(alloc, &pair.new)?,
        spelled: &pair.new,
    })
}

// What pairs of sorts say.
fn new_sorts<'a>(alloc: Global, pairs: &'a [SortPair]) -> Result<Vec<NewSort<'a>>, Memory>
    ensures { IfOk result (λ all. map new_sort_of all.items ≡ map images.new_sort pairs.now) }
{
    let mut all = Vec::new(alloc);
    for pair in pairs {
        all.push(new_sort(alloc, pair)?)?;
    }
    Ok(all)
}

/// What a pair of operations says.
pub fn new_operation<'a>(alloc: Global, pair: &'a OperationPair) -> Result<NewOperation<'a>, Memory>
    ensures { IfOk result (λ n. new_operation_of n ≡ images.new_operation pair.now) }
{
    Ok(NewOperation {
        old_kind: kind_of(&pair.old),
        old: small(alloc, name_of(&pair.old))?,
        new_kind: kind_of(&pair.new),
        new: small(alloc, name_of(&pair.new))?,
        spelled: name_of(&pair.new),
    })
}

// What pairs of operations say.
fn new_operations<'a>(
    alloc: Global,
    pairs: &'a [OperationPair],
) -> Result<Vec<NewOperation<'a>>, Memory>
    ensures { IfOk result (λ all. map new_operation_of all.items ≡ map images.new_operation pairs.now) }
{
    let mut all = Vec::new(alloc);
    for pair in pairs {
        all.push(new_operation(alloc, pair)?)?;
    }
    Ok(all)
}

/// The pairs of sorts. It takes no memory.
pub fn sort_pairs(pairs: &Pairs) -> &[SortPair]
    ensures { result.now ≡ listed pairs.now.sorts }
{
    match &pairs.sorts {
        None => &[],
        Some(all) => all,
    }
}

/// The pairs of operations. It takes no memory.
pub fn operation_pairs(pairs: &Pairs) -> &[OperationPair]
    ensures { result.now ≡ listed pairs.now.operations }
{
    match &pairs.operations {
        None => &[],
        Some(all) => all,
    }
}

impl<'a> Renaming<'a> {
    /// What pairs of names say.
    pub fn of(alloc: Global, pairs: &'a Pairs) -> Result<Renaming<'a>, Memory>
        ensures { IfOk result (λ r. renaming_view r ≡ images.renaming_of pairs.now) }
    {
        Ok(Renaming {
            sorts: new_sorts(alloc, sort_pairs(pairs))?,
            operations: new_operations(alloc, operation_pairs(pairs))?,
        })
    }
}

/// The first of the new names of a sort. It takes no memory.
pub fn for_sort<'n, 'a>(news: &'n [NewSort<'a>], name: &str) -> Option<&'n NewSort<'a>>
    ensures { option_map (λ n. new_sort_of n.now) result ≡ images.for_sort (map new_sort_of news.now) name.now }
{
    match news {
        [] => None,
        [first, others @ ..] => {
            if first.old.as_str() == name {
                Some(first)
            } else {
                for_sort(others, name)
            }
        }
    }
}

// The image of a sort's name.
fn sort_image(alloc: Global, news: &[NewSort<'_>], name: &str) -> Result<String, Memory>
    ensures { IfOk result (λ text. string_bytes text ≡ images.sort_image (map new_sort_of news.now) name.now) }
{
    match for_sort(news, name) {
        None => Ok(String::from_str(alloc, name)?),
        Some(found) => Ok(String::from_str(alloc, found.new.as_str())?),
    }
}

// The images of sorts.
fn sort_images(alloc: Global, news: &[NewSort<'_>], names: &[String]) -> Result<Vec<String>, Memory>
    ensures { IfOk result (λ all. map (λ s. string_bytes s) all.items ≡ map (images.sort_image (map new_sort_of news.now))
        (map (λ s. string_bytes s) names.now)) }
{
    let mut all = Vec::new(alloc);
    for name in names {
        all.push(sort_image(alloc, news, name.as_str())?)?;
    }
    Ok(all)
}

// The name of an item under new names of sorts.
fn name_image(alloc: Global, news: &[NewSort<'_>], item: &Item) -> Result<String, Memory>
    ensures { IfOk result (λ text. string_bytes text ≡ (images.sorts_renamed (map new_sort_of news.now) (item_of item.now)).name) }
{
    if item.kind.is_same(ItemKind::Sort) {
        sort_image(alloc, news, item.name.as_str())
    } else {
        Ok(String::from_str(alloc, item.name.as_str())?)
    }
}

// Whether the new name is for operations of this kind and name.
fn renames(new: &NewOperation<'_>, item: &Item) -> bool
    ensures { result ≡ images.renames (item_of item.now) (new_operation_of new.now) }
{
    new.old_kind.is_same(item.kind) && new.old.as_str() == item.name.as_str()
}

/// The first of the new names of an operation. It takes no memory.
pub fn for_operation<'n, 'a>(
    news: &'n [NewOperation<'a>],
    item: &Item,
) -> Option<&'n NewOperation<'a>>
    ensures { option_map (λ n. new_operation_of n.now) result ≡ images.for_operation (map new_operation_of news.now) (item_of item.now) }
{
    match news {
        [] => None,
        [first, others @ ..] => {
            if renames(first, item) {
                Some(first)
            } else {
                for_operation(others, item)
            }
        }
    }
}

// The item with new names of sorts.
fn sorts_renamed(alloc: Global, news: &[NewSort<'_>], item: &Item) -> Result<Item, Memory>
    ensures { IfOk result (λ x. item_of x ≡ images.sorts_renamed (map new_sort_of news.now) (item_of item.now)) }
{
    Ok(Item {
        kind: item.kind,
        name: name_image(alloc, news, item)?,
        sorts: sort_images(alloc, news, &item.sorts)?,
    })
}

// The operation with its new name, if it has one.
fn named_by(alloc: Global, found: Option<&NewOperation<'_>>, renamed: Item) -> Result<Item, Memory>
    ensures { IfOk result (λ x. item_of x ≡ images.named_by (option_map (λ n. new_operation_of n.now) found.entry) (item_of renamed)) }
{
    match found {
        None => Ok(renamed),
        Some(new) => Ok(Item {
            kind: new.new_kind,
            name: String::from_str(alloc, new.new.as_str())?,
            sorts: renamed.sorts,
        }),
    }
}

/// The image of an item under these new names.
pub fn image_by(
    alloc: Global,
    sorts: &[NewSort<'_>],
    operations: &[NewOperation<'_>],
    item: &Item,
) -> Result<Item, Memory>
    ensures { IfOk result (λ x. item_of x ≡ images.image (renaming_by sorts.now operations.now) (item_of item.now)) }
{
    named_by(
        alloc,
        for_operation(operations, item),
        sorts_renamed(alloc, sorts, item)?,
    )
}

/// The image of an item.
pub fn image(alloc: Global, renaming: &Renaming<'_>, item: &Item) -> Result<Item, Memory>
    ensures { IfOk result (λ x. item_of x ≡ images.image (renaming_view renaming.now) (item_of item.now)) }
{
    image_by(alloc, &renaming.sorts, &renaming.operations, item)
}

/// Whether a formal item has the kind and the name of this one. It takes no memory.
pub fn has_formal_name(table: &ItemTable, formals: &[usize], item: &Item) -> bool
    requires { AreWithin (length table.now) formals.now }
    ensures { result ≡ images.has_formal_name (items_at table.now formals.now) (item_of item.now) }
{
    match formals {
        [] => false,
        [first, others @ ..] => {
            item.has_same_name(table.item(*first)) || has_formal_name(table, others, item)
        }
    }
}

/// The image of an item that isn't formal, where the formal ones are replaced.
pub fn kept_image(
    alloc: Global,
    table: &ItemTable,
    formals: &[usize],
    renaming: &Renaming<'_>,
    item: &Item,
) -> Result<Item, Memory>
    requires { AreWithin (length table.now) formals.now }
    ensures { IfOk result (λ x. item_of x ≡ images.kept_image (items_at table.now formals.now) (renaming_view renaming.now)
        (item_of item.now)) }
{
    if has_formal_name(table, formals, item) {
        sorts_renamed(alloc, &renaming.sorts, item)
    } else {
        image(alloc, renaming, item)
    }
}
