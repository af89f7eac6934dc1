// The signature of the data_specs.

ghost use Rattle.std.specs.Prelude.{◌≡◌, List, IfOk, length, map, string_bytes};
ghost use Rattle.spec_core.specs.Numbers.{sort_number};
ghost use Rattle.spec_core.specs.Theories.{operation_of, operations_of};
ghost use Rattle.type_contents.specs.Items.{Described};
ghost use Rattle.type_contents.specs.Own.{sort_item};
ghost use Rattle.type_contents.specs.Numbering.{number_among};
ghost use Rattle.type_contents.specs.Views.{described_of};
ghost use Rattle.type_equation_copies.specs.Indexes.{items_in, IsIndexOf};
ghost use Rattle.type_data.specs.Data as data_specs;

use crate::items::item_number;
use spec_core::items::Sort;
use spec_core::memory::Memory;
use spec_core::name::Name;
use spec_core::signature::{OpDecl, Signature};
use std::alloc::Global;
use type_contents::item::Item;
use type_contents::item_kind::ItemKind;
use type_contents::own::Declared;
use type_equation_copies::item_index::ItemIndex;

// The number of the sort of a name.
fn sort_number(alloc: Global, index: &ItemIndex<'_>, name: &str) -> Result<u32, Memory>
    ensures { IfOk result (λ n. (sorts : List Described) → IsIndexOf index.now (items_in sorts) → n ≡ number_among sorts
        (sort_item name.now)) }
{
    let item = Item {
        kind: ItemKind::Sort,
        name: String::from_str(alloc, name)?,
        sorts: Vec::new(alloc),
    };
    item_number(index, &item)
}

// The numbers of the sorts of these names.
fn sort_numbers(alloc: Global, index: &ItemIndex<'_>, names: &[String]) -> Result<Vec<Sort>, Memory>
    ensures { IfOk result (λ all. (sorts : List Described) → IsIndexOf index.now (items_in sorts) → map sort_number all.items
        ≡ data_specs.sort_numbers sorts (map (λ s. string_bytes s) names.now)) }
{
    let mut all = Vec::new(alloc);
    for name in names {
        all.push(Sort(sort_number(alloc, index, name.as_str())?))?;
    }
    Ok(all)
}

// Takes the last of the sorts away.
fn last_sort(all: &mut Vec<Sort>) -> Sort
    ensures last { result.0 ≡ data_specs.last_number (map sort_number all.old.items) }
    ensures others { map sort_number all.new.items ≡ data_specs.all_but_last (map sort_number all.old.items) }
{
    match all.pop() {
        None => Sort(0),
        Some(last) => last,
    }
}

// The name of an operation, in which low lines stand for the arguments where it stands between them.
fn operation_name(alloc: Global, one: &Declared<'_>) -> Result<Name, Memory>
    ensures { IfOk result (λ name. name ≡ data_specs.operation_name (described_of one.now)) }
{
    let spelled = one.spelled.text.as_str();
    if one.item.kind.is_same(ItemKind::Infix) {
        let mut name = String::from_str(alloc, "_")?;
        name.push_str(spelled)?;
        name.push_str("_")?;
        Ok(Name::new(name))
    } else {
        Ok(Name::new(String::from_str(alloc, spelled)?))
    }
}

// An operation as it is declared.
fn operation(alloc: Global, sorts: &ItemIndex<'_>, one: &Declared<'_>) -> Result<OpDecl, Memory>
    ensures { IfOk result (λ d. (all : List Described) → IsIndexOf sorts.now (items_in all) → operation_of d
        ≡ data_specs.operation all (described_of one.now)) }
{
    let mut args = sort_numbers(alloc, sorts, &one.item.sorts)?;
    let result = last_sort(&mut args);
    Ok(OpDecl {
        name: operation_name(alloc, one)?,
        args,
        result,
        marked: one.marked,
        place_line: one.place.line,
        place_column: one.place.column,
    })
}

// Operations as they are declared.
fn operations(
    alloc: Global,
    sorts: &ItemIndex<'_>,
    described: &[Declared<'_>],
) -> Result<Vec<OpDecl>, Memory>
    ensures { IfOk result (λ all. (among : List Described) → IsIndexOf sorts.now (items_in among) → map operation_of all.items
        ≡ map (data_specs.operation among) (map described_of described.now)) }
{
    let mut all = Vec::new(alloc);
    for one in described {
        all.push(operation(alloc, sorts, one)?)?;
    }
    Ok(all)
}

// The names of sorts as they are written.
fn sort_names(alloc: Global, described: &[Declared<'_>]) -> Result<Vec<Name>, Memory>
    ensures { IfOk result (λ all. all.items ≡ map (λ d. d.spelled) (map described_of described.now)) }
{
    let mut all = Vec::new(alloc);
    for one in described {
        let spelled = String::from_str(alloc, one.spelled.text.as_str())?;
        all.push(Name::new(spelled))?;
    }
    Ok(all)
}

/// The signature of these sorts and operations.
pub fn signature(
    alloc: Global,
    sorts: &[Declared<'_>],
    described: &[Declared<'_>],
) -> Result<Signature, Memory>
    ensures sorts { IfOk result (λ s. s.sorts.items ≡ map (λ d. d.spelled) (map described_of sorts.now)) }
    ensures operations { IfOk result (λ s. operations_of s ≡ map (data_specs.operation (map described_of sorts.now))
        (map described_of described.now)) }
{
    let index = ItemIndex::of_described(alloc, sorts)?;
    Ok(Signature {
        sorts: sort_names(alloc, sorts)?,
        ops: operations(alloc, &index, described)?,
    })
}
