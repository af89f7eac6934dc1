// The sorts and operations that are part of the data.

ghost use Rattle.std.specs.Prelude.{◌≡◌, ◌<◌, ◌++◌, ◌∷◌, [], List, IfOk, OnOk, length, map, slice_index_or, if◌then◌else◌};
ghost use Rattle.std.specs.List.{filter};
ghost use Rattle.type_contents.specs.Items as items;
ghost use Rattle.type_contents.specs.Items.{is_in};
ghost use Rattle.type_contents.specs.Numbering.{number_among};
ghost use Rattle.type_contents.specs.Contents.{no_content};
ghost use Rattle.type_contents.specs.Views.{item_of, described_of, items_at, AreWithin};
ghost use Rattle.type_equation_copies.specs.Copies.{image_numbers};
ghost use Rattle.type_equation_copies.specs.Indexes.{item_at, items_in, IsIndexOf};
ghost use Rattle.type_data.specs.Data.{of_data};

use spec_core::memory::Memory;
use std::alloc::Global;
use type_contents::contents::Contents;
use type_contents::described::copied;
use type_contents::item::Item;
use type_contents::item_table::ItemTable;
use type_contents::own::Declared;
use type_equation_copies::item_index::ItemIndex;
use type_equation_copies::new_numbers::small_number;

// Adds items by their numbers in a table.
fn add_items<'c>(
    all: &mut Vec<&'c Item>,
    table: &'c ItemTable,
    numbers: &[usize],
) -> Result<(), Memory>
    requires { AreWithin (length table.now) numbers.now }
    ensures { OnOk result (map item_at all.new.items ≡ map item_at all.old.items ++ items_at table.now numbers.now) }
{
    for number in numbers {
        all.push(table.item(*number))?;
    }
    Ok(())
}

// Adds what a type has, unless it is formal.
fn add_type<'c>(
    all: &mut Vec<&'c Item>,
    contents: &'c Contents,
    number: usize,
    is_formal: bool,
) -> Result<(), Memory>
    ensures { OnOk result (map item_at all.new.items ≡ map item_at all.old.items
        ++ (if is_formal then [] else (slice_index_or contents.now number no_content).items)) }
{
    if is_formal {
        return Ok(());
    }
    let content = contents.of_type(number);
    add_items(all, content.table, content.items)
}

// What the types have that aren't formal.
fn data_items<'c>(
    alloc: Global,
    contents: &'c Contents,
    formal: &[bool],
) -> Result<Vec<&'c Item>, Memory>
    requires { length formal.now ≡ length contents.now }
    ensures { IfOk result (λ all. map item_at all.items ≡ of_data (λ c. c.items) formal.now contents.now) }
{
    let mut all = Vec::new(alloc);
    for (number, is_formal) in formal.iter().enumerate() {
        add_type(&mut all, contents, number, *is_formal)?;
    }
    Ok(all)
}

// The index of what the types have that aren't formal.
fn data_index<'c>(
    alloc: Global,
    contents: &'c Contents,
    formal: &[bool],
) -> Result<ItemIndex<'c>, Memory>
    requires { length formal.now ≡ length contents.now }
    ensures { IfOk result (λ index. IsIndexOf index (of_data (λ c. c.items) formal.now contents.now)) }
{
    let items = data_items(alloc, contents, formal)?;
    ItemIndex::new(alloc, &items)
}

// Adds a description if its item is in an index.
fn add_if_in<'a>(
    alloc: Global,
    index: &ItemIndex<'_>,
    some: &mut Vec<Declared<'a>>,
    one: &Declared<'a>,
) -> Result<(), Memory>
    ensures { OnOk result ((among : List items.Item) → IsIndexOf index.now among → map described_of some.new.items
        ≡ map described_of some.old.items ++ (if is_in among (described_of one.now).item then described_of one.now ∷ [] else [])) }
{
    if index.has(&one.item) {
        some.push(copied(alloc, one)?)?;
    }
    Ok(())
}

// Those of the descriptions whose items are in an index.
fn those_in<'a>(
    alloc: Global,
    index: &ItemIndex<'_>,
    all: &[Declared<'a>],
) -> Result<Vec<Declared<'a>>, Memory>
    ensures { IfOk result (λ some. (among : List items.Item) → IsIndexOf index.now among → map described_of some.items
        ≡ filter (λ d. is_in among d.item) (map described_of all.now)) }
{
    let mut some = Vec::new(alloc);
    for one in all {
        add_if_in(alloc, index, &mut some, one)?;
    }
    Ok(some)
}

/// Those of the descriptions whose items some type has that isn't formal.
pub fn those_of_data<'a>(
    alloc: Global,
    contents: &Contents,
    formal: &[bool],
    all: &[Declared<'a>],
) -> Result<Vec<Declared<'a>>, Memory>
    requires { length formal.now ≡ length contents.now }
    ensures { IfOk result (λ some. map described_of some.items ≡ filter
        (λ d. is_in (of_data (λ c. c.items) formal.now contents.now) d.item) (map described_of all.now)) }
{
    let index = data_index(alloc, contents, formal)?;
    those_in(alloc, &index, all)
}

/// The number of an item in an index. It takes no memory.
pub fn item_number(index: &ItemIndex<'_>, item: &Item) -> Result<u32, Memory>
    ensures { IfOk result (λ n. (among : List items.Described) → IsIndexOf index.now (items_in among) → n ≡ number_among among
        (item_of item.now)) }
{
    let number = small_number(index.number(item))?;
    Ok(number)
}

// The numbers of items, which an index has.
fn item_numbers(
    alloc: Global,
    index: &ItemIndex<'_>,
    described: &[Declared<'_>],
) -> Result<Vec<u32>, Memory>
    ensures { IfOk result (λ all. (among : List items.Described) → IsIndexOf index.now (items_in among) → all.items
        ≡ image_numbers among (λ x. x) (map described_of described.now)) }
{
    let mut all = Vec::new(alloc);
    for one in described {
        all.push(item_number(index, &one.item)?)?;
    }
    Ok(all)
}

/// The numbers of items among others.
pub fn numbers_among(
    alloc: Global,
    among: &[Declared<'_>],
    described: &[Declared<'_>],
) -> Result<Vec<u32>, Memory>
    ensures { IfOk result (λ all. all.items ≡ image_numbers (map described_of among.now) (λ x. x) (map described_of described.now)) }
{
    let index = ItemIndex::of_described(alloc, among)?;
    item_numbers(alloc, &index, described)
}
