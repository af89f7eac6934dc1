// The readings that operations give.

ghost use Rattle.std.specs.Prelude.{◌≡◌, ◌<◌, ◌^◌, ◌++◌, List, IfOk, OnOk, map, vec_len};
ghost use Rattle.spec_core.specs.Theories.{operation_of, operations_of};
ghost use Rattle.sort_overloads.specs.Indexes.{IsIndexOf};
ghost use Rattle.sort_overloads.specs.Listed.{Typed, StandsFor, application, of_operation, of_operations};
ghost use Rattle.sort_overloads.specs.Tables.{table_of, reading_of, list_of};

use crate::combine::first_lists;
use crate::name_index::NameIndex;
use crate::table::{Pick, Reading, Root, Table};
use spec_core::items::{Op, Sort};
use spec_core::memory::Memory;
use spec_core::signature::{OpDecl, Signature};
use std::alloc::Global;

/// What the operations that are spelled so give over these arguments.
pub fn operation_readings(
    alloc: Global,
    signature: &Signature,
    index: &NameIndex,
    spelled: &str,
    arguments: &[Table],
) -> Result<Vec<Reading>, Memory>
    requires index { IsIndexOf index.now (operations_of signature.now) }
    ensures stands { IfOk result (λ all.
        StandsFor (of_operations spelled.now (map table_of arguments.now) 0 (operations_of signature.now))
        (map (reading_of (map table_of arguments.now)) all.items)) }
{
    let mut all = Vec::new(alloc);
    for number in index.numbers(alloc, spelled)? {
        let declaration = &signature.ops[*number as usize];
        add_operation(
            alloc,
            &mut all,
            Op(*number),
            declaration,
            spelled,
            arguments,
        )?;
    }
    Ok(all)
}

// Adds what one operation gives.
fn add_operation(
    alloc: Global,
    all: &mut Vec<Reading>,
    op: Op,
    declaration: &OpDecl,
    spelled: &str,
    arguments: &[Table],
) -> Result<(), Memory>
    ensures { OnOk result ((before : List Typed) →
        StandsFor before (map (reading_of (map table_of arguments.now)) all.old.items) →
        StandsFor (before ++ of_operation spelled.now (map table_of arguments.now) op.0 (operation_of declaration.now))
        (map (reading_of (map table_of arguments.now)) all.new.items)) }
{
    if !declaration.name.as_str().eq_ignore_ascii_case(spelled) {
        return Ok(());
    }
    let lists = first_lists(alloc, &declaration.args, arguments)?;
    add_applications(all, op, declaration.result, lists)
}

// Adds the operation over each of these lists.
fn add_applications(
    all: &mut Vec<Reading>,
    op: Op,
    sort: Sort,
    lists: Vec<Vec<Pick>>,
) -> Result<(), Memory>
    ensures { OnOk result ((tables : List (List Typed)) → map (reading_of tables) all.new.items
        ≡ map (reading_of tables) all.old.items ++ map (application op.0 sort.0) (map (list_of tables) lists.items)) }
{
    for list in lists {
        all.push(Reading {
            root: Root::Operation(op, list),
            sort,
        })?;
    }
    Ok(())
}
