// The signature in which the equations of a type are read.

ghost use Rattle.std.specs.Prelude.{◌≡◌, ◌++◌, ◌∷◌, [], ◌<◌, ◌≤◌, ◌^◌, IfOk, OnOk, map, length, string_bytes, nat_lt, if◌then◌else◌};
ghost use Rattle.std.specs.BTreeSet.{insert_key};
ghost use Rattle.std.specs.List.{IsDistinct};
ghost use Rattle.std.specs.Ordering.{nat_cmp};
ghost use Rattle.spec_core.specs.Numbers as numbers;
ghost use Rattle.spec_core.specs.Theories.{operation_of};
ghost use Rattle.type_contents.specs.Items.{is_same_item};
ghost use Rattle.type_contents.specs.Views.{described_of, items_at, AreWithin};
ghost use Rattle.type_equation_copies.specs.Indexes.{IsIndexOf, items_in};
ghost use Rattle.static_presentation.specs.Signatures as signatures;

use spec_core::items::Sort;
use spec_core::memory::Memory;
use spec_core::name::Name;
use spec_core::signature::OpDecl;
use std::alloc::Global;
use std::collections::BTreeSet;
use type_contents::described::copied;
use type_contents::item::is_same_text;
use type_contents::item_kind::ItemKind;
use type_contents::item_table::ItemTable;
use type_contents::own::Declared;
use type_equation_copies::item_index::ItemIndex;

// Puts the number of an item among so many to those that are found, if it has one.
fn put_number(found: &mut BTreeSet<u32>, number: usize, count: usize) -> Result<(), Memory>
    requires few { count < 2 ^ 32 }
    ensures { OnOk result (found.new.keys ≡ (if nat_lt number count then insert_key nat_cmp found.old.keys number else found.old.keys)) }
{
    if number < count {
        found.insert(number as u32)?;
    }
    Ok(())
}

// Numbers, ascending.
fn ascending(alloc: Global, found: BTreeSet<u32>) -> Result<Vec<u32>, Memory>
    ensures { IfOk result (λ numbers. numbers.items ≡ found.keys) }
{
    let mut numbers = Vec::new(alloc);
    for number in found {
        numbers.push(number)?;
    }
    Ok(numbers)
}

/// The numbers among all of those that a type has, ascending.
pub fn numbers_had(
    alloc: Global,
    table: &ItemTable,
    items: &[usize],
    index: &ItemIndex<'_>,
    all: &[Declared<'_>],
) -> Result<Vec<u32>, Memory>
    requires few { length all.now < 2 ^ 32 }
    requires index { IsIndexOf index.now (items_in (map described_of all.now)) }
    requires once { IsDistinct is_same_item (map (λ d. d.item) (map described_of all.now)) }
    requires within { AreWithin (length table.now) items.now }
    ensures { IfOk result (λ numbers. numbers.items
        ≡ signatures.numbers_had (items_at table.now items.now) (map described_of all.now)) }
{
    let mut found = BTreeSet::new(alloc);
    for number in items {
        put_number(&mut found, index.number(table.item(*number)), all.len())?;
    }
    let numbers = ascending(alloc, found)?;
    Ok(numbers)
}

// Adds what stands at a number, if there is such.
fn add_at<'a>(
    alloc: Global,
    had: &mut Vec<Declared<'a>>,
    all: &[Declared<'a>],
    number: usize,
) -> Result<(), Memory>
    ensures { OnOk result (map described_of had.new.items
        ≡ map described_of had.old.items ++ signatures.stands_at (map described_of all.now) (number ∷ [])) }
{
    if number < all.len() {
        had.push(copied(alloc, &all[number])?)?;
    }
    Ok(())
}

/// Those of all that stand at these numbers.
pub fn had_at<'a>(
    alloc: Global,
    all: &[Declared<'a>],
    numbers: &[u32],
) -> Result<Vec<Declared<'a>>, Memory>
    ensures { IfOk result (λ had. map described_of had.items
        ≡ signatures.stands_at (map described_of all.now) numbers.now) }
{
    let mut had = Vec::new(alloc);
    for number in numbers {
        add_at(alloc, &mut had, all, *number as usize)?;
    }
    Ok(had)
}

/// The names of sorts as they are written.
pub fn names_of(alloc: Global, sorts: &[Declared<'_>]) -> Result<Vec<Name>, Memory>
    ensures { IfOk result (λ all. all.items ≡ map (λ d. d.spelled) (map described_of sorts.now)) }
{
    let mut all = Vec::new(alloc);
    for sort in sorts {
        all.push(sort.spelled.text.copy(alloc)?)?;
    }
    Ok(all)
}

// The number of the sort of this name; how many sorts there are where none has it.
fn sort_number(sorts: &[Declared<'_>], name: &str) -> usize
    ensures number { result ≡ signatures.sort_number (map described_of sorts.now) name.now }
    ensures bound { result ≤ length sorts.now }
{
    for (i, sort) in sorts.iter().enumerate() {
        if is_same_text(sort.item.name.as_str(), name) {
            return i;
        }
    }
    sorts.len()
}

// The numbers of sorts by their names.
fn sort_numbers(
    alloc: Global,
    sorts: &[Declared<'_>],
    names: &[String],
) -> Result<Vec<Sort>, Memory>
    requires few { length sorts.now < 2 ^ 32 }
    ensures { IfOk result (λ all. map numbers.sort_number all.items
        ≡ map (signatures.sort_number (map described_of sorts.now)) (map (λ s. string_bytes s) names.now)) }
{
    let mut all = Vec::new(alloc);
    for name in names {
        all.push(Sort(sort_number(sorts, name.as_str()) as u32))?;
    }
    Ok(all)
}

// The name of an operation as it is declared, with low lines where it stands between its arguments.
fn written_name(alloc: Global, one: &Declared<'_>) -> Result<Name, Memory>
    ensures { IfOk result (λ name. name ≡ signatures.written_name (described_of one.now)) }
{
    if !one.item.kind.is_same(ItemKind::Infix) {
        return one.spelled.text.copy(alloc);
    }
    let mut text = String::from_str(alloc, "_")?;
    text.push_str(one.spelled.text.as_str())?;
    text.push_str("_")?;
    Ok(Name::new(text))
}

// An operation with the numbers of its sorts.
fn operation_with(alloc: Global, one: &Declared<'_>, mut sorts: Vec<Sort>) -> Result<OpDecl, Memory>
    ensures { IfOk result (λ op. operation_of op
        ≡ signatures.operation_with (described_of one.now) (map numbers.sort_number sorts.items)) }
{
    let result = sorts.pop().unwrap_or(Sort(0));
    Ok(OpDecl {
        name: written_name(alloc, one)?,
        args: sorts,
        result,
        marked: one.marked,
        place_line: one.place.line,
        place_column: one.place.column,
    })
}

// An operation over sorts.
fn operation_over(
    alloc: Global,
    sorts: &[Declared<'_>],
    one: &Declared<'_>,
) -> Result<OpDecl, Memory>
    requires few { length sorts.now < 2 ^ 32 }
    ensures { IfOk result (λ op. operation_of op ≡ signatures.operation_over (map described_of sorts.now) (described_of one.now)) }
{
    let numbers = sort_numbers(alloc, sorts, &one.item.sorts)?;
    operation_with(alloc, one, numbers)
}

/// Operations over sorts.
pub fn operations_over(
    alloc: Global,
    sorts: &[Declared<'_>],
    operations: &[Declared<'_>],
) -> Result<Vec<OpDecl>, Memory>
    requires few { length sorts.now < 2 ^ 32 }
    ensures { IfOk result (λ all. map operation_of all.items
        ≡ map (signatures.operation_over (map described_of sorts.now)) (map described_of operations.now)) }
{
    let mut all = Vec::new(alloc);
    for operation in operations {
        all.push(operation_over(alloc, sorts, operation)?)?;
    }
    Ok(all)
}
