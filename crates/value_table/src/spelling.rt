// The term of a row as a list of operations.

ghost use Rattle.std.specs.Prelude.{◌≡◌, ◌++◌, IfOk, OnOk, map, reverse};
ghost use Rattle.spec_core.specs.Terms.{preorder};
ghost use Rattle.value_table.specs.Tables.{tree_at, IsRow};

use crate::table::TermTable;
use spec_core::memory::Memory;
use spec_core::value::Value;
use std::alloc::Global;

// Appends these numbers, the last one first.
fn push_reversed(todo: &mut Vec<u32>, rows: &[u32]) -> Result<(), Memory>
    ensures { OnOk result (todo.new.items ≡ todo.old.items ++ reverse rows.now) }
{
    match rows {
        [] => Ok(()),
        [first, rest @ ..] => {
            push_reversed(todo, rest)?;
            todo.push(*first)?;
            Ok(())
        }
    }
}

/// The term of a row as the list of its operations in preorder. It doesn't recur.
pub fn spell(alloc: Global, table: &TermTable, row: u32) -> Result<Value, Memory>
    requires there { IsRow table.now row }
    ensures spelled { IfOk result (λ value. value ≡ preorder (tree_at table.now row)) }
{
    let mut ops = Vec::new(alloc);
    let mut todo = Vec::new(alloc);
    todo.push(row)?;
    for _turn in 0..u64::MAX {
        match todo.pop() {
            None => return Ok(Value::new(ops)),
            Some(next) => {
                let (op, args) = table.at(next);
                ops.push(op)?;
                push_reversed(&mut todo, args)?;
            }
        }
    }
    Err(Memory)
}
