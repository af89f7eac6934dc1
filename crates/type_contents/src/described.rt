// Items as types bring them in.

ghost use Rattle.std.specs.Prelude.{◌≡◌, IfOk, OnOk, map, string_bytes, option_map};
ghost use Rattle.std.specs.List.{list_any};
ghost use Rattle.type_contents.specs.Lists.{with_one};
ghost use Rattle.type_contents.specs.Items.{is_same_described};
ghost use Rattle.type_contents.specs.Images as images;
ghost use Rattle.type_contents.specs.Views.{item_of, described_of, new_sort_of, new_operation_of};
ghost use Rattle.type_contents.specs.Views as views;

use crate::images::{NewOperation, NewSort, for_operation, for_sort, image_by};
use crate::item::Item;
use crate::item_kind::ItemKind;
use crate::own::Declared;
use lotos_ast::token::Token;
use spec_core::memory::Memory;
use std::alloc::Global;

// Equal names.
fn copied_names(alloc: Global, names: &[String]) -> Result<Vec<String>, Memory>
    ensures { IfOk result (λ all. map (λ s. string_bytes s) all.items ≡ map (λ s. string_bytes s) names.now) }
{
    let mut all = Vec::new(alloc);
    for name in names {
        all.push(String::from_str(alloc, name.as_str())?)?;
    }
    Ok(all)
}

/// An equal item.
pub fn copied_item(alloc: Global, item: &Item) -> Result<Item, Memory>
    ensures { IfOk result (λ x. item_of x ≡ item_of item.now) }
{
    Ok(Item {
        kind: item.kind,
        name: String::from_str(alloc, item.name.as_str())?,
        sorts: copied_names(alloc, &item.sorts)?,
    })
}

/// An equal description.
pub fn copied<'a>(alloc: Global, one: &Declared<'a>) -> Result<Declared<'a>, Memory>
    ensures { IfOk result (λ d. described_of d ≡ described_of one.now) }
{
    Ok(Declared {
        item: copied_item(alloc, &one.item)?,
        spelled: one.spelled,
        marked: one.marked,
        place: one.place,
    })
}

/// Whether an item is described among these. It takes no memory.
pub fn is_described(all: &[Declared<'_>], one: &Declared<'_>) -> bool
    ensures { result ≡ list_any (is_same_described (described_of one.now)) (map described_of all.now) }
{
    match all {
        [] => false,
        [first, others @ ..] => one.item.is_same(&first.item) || is_described(others, one),
    }
}

/// Adds a description, unless the item is described.
pub fn add_first<'a>(
    alloc: Global,
    all: &mut Vec<Declared<'a>>,
    one: &Declared<'a>,
) -> Result<(), Memory>
    ensures { OnOk result (map described_of all.new.items ≡ with_one is_same_described (map described_of all.old.items)
        (described_of one.now)) }
{
    if is_described(all, one) {
        return Ok(());
    }
    all.push(copied(alloc, one)?)?;
    Ok(())
}

// How the image of a sort is written.
fn sort_spelling<'a>(sorts: &[NewSort<'a>], one: &Declared<'a>) -> &'a Token
    ensures { result.now.text ≡ images.spelling_of_sort (map new_sort_of sorts.now) (described_of one.now) }
{
    match for_sort(sorts, one.item.name.as_str()) {
        None => one.spelled,
        Some(new) => new.spelled,
    }
}

// How the image of an operation is written.
fn operation_spelling<'a>(operations: &[NewOperation<'a>], one: &Declared<'a>) -> &'a Token
    ensures { result.now.text ≡ images.spelling_of_operation (map new_operation_of operations.now) (described_of one.now) }
{
    match for_operation(operations, &one.item) {
        None => one.spelled,
        Some(new) => new.spelled,
    }
}

// How the image of an item is written.
fn spelling<'a>(
    sorts: &[NewSort<'a>],
    operations: &[NewOperation<'a>],
    one: &Declared<'a>,
) -> &'a Token
    ensures { result.now.text ≡ images.spelling (views.renaming_by sorts.now operations.now) (described_of one.now) }
{
    if one.item.kind.is_same(ItemKind::Sort) {
        sort_spelling(sorts, one)
    } else {
        operation_spelling(operations, one)
    }
}

/// The image of a described item, with the mark and the place of what it copies.
pub fn described_image<'a>(
    alloc: Global,
    sorts: &[NewSort<'a>],
    operations: &[NewOperation<'a>],
    one: &Declared<'a>,
) -> Result<Declared<'a>, Memory>
    ensures { IfOk result (λ d. described_of d ≡ images.described_image (views.renaming_by sorts.now operations.now)
        (described_of one.now)) }
{
    Ok(Declared {
        item: image_by(alloc, sorts, operations, &one.item)?,
        spelled: spelling(sorts, operations, one),
        marked: one.marked,
        place: one.place,
    })
}
