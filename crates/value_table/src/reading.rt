// Lists of operations read into a table.

ghost use Rattle.std.specs.Prelude.{◌≡◌, ◌<◌, ◌≤◌, ◌-◌, ◌∷◌, IfNone, IfOk, IfSome, IsFalse, IsTrue, OnOk, Some};
ghost use Rattle.std.specs.Prelude.{drop, length, reverse, take};
ghost use Rattle.std.specs.List.{slice_get};
ghost use Rattle.spec_core.specs.Lists.{Each};
ghost use Rattle.spec_core.specs.Terms.{preorder};
ghost use Rattle.spec_core.specs.Theories.{theory_of};
ghost use Rattle.value_table.specs.Spelled.{spelled_from_last, SpellsOne, SpellsSome};
ghost use Rattle.value_table.specs.Tables.{tree_at, AreFit, IsLonger, IsRow};

use crate::sorts::{declaration_of, have_sorts};
use crate::table::TermTable;
use spec_core::equation::DataSpec;
use spec_core::items::Op;
use spec_core::memory::Memory;
use spec_core::value::Value;
use std::alloc::Global;

// Takes the last so many rows, the last one first.
fn take_rows(alloc: Global, rows: &mut Vec<u32>, count: usize) -> Result<Vec<u32>, Memory>
    requires enough { count ≤ length rows.old.items }
    ensures taken { IfOk result (λ args. args.items ≡ take count (reverse rows.old.items)) }
    ensures left { OnOk result (reverse rows.new.items ≡ drop count (reverse rows.old.items)) }
{
    let mut args = Vec::new(alloc);
    'taken: for _taken in 0..count {
        match rows.pop() {
            None => return Err(Memory),
            Some(row) => args.push(row)?,
        }
    }
    Ok(args)
}

// Puts an operation over the last rows in their place, the last one being its first argument, if that is a term of the data.
fn read_op(
    alloc: Global,
    table: &mut TermTable,
    algebra: &DataSpec,
    rows: &mut Vec<u32>,
    op: Op,
) -> Result<bool, Memory>
    requires fit { AreFit (theory_of algebra.now) table.old }
    requires there { Each (IsRow table.old) rows.old.items }
    ensures longer { OnOk result (IsLonger table.old table.new) }
    ensures fit { OnOk result (AreFit (theory_of algebra.now) table.new) }
    ensures there { IfOk result (λ ok. IsTrue ok → Each (IsRow table.new) rows.new.items) }
    ensures spelled { IfOk result (λ ok.
        IsTrue ok → spelled_from_last table.new rows.new.items ≡ op.0 ∷ spelled_from_last table.old rows.old.items) }
    ensures none { IfOk result (λ ok.
        IsFalse ok → SpellsSome (theory_of algebra.now) (op.0 ∷ spelled_from_last table.old rows.old.items) → ⊥) }
{
    match declaration_of(algebra, op) {
        None => Ok(false),
        Some(declared) => {
            let count = declared.args.len();
            if rows.len() < count {
                return Ok(false);
            }
            let args = take_rows(alloc, rows, count)?;
            if !have_sorts(table, algebra, &args, &declared.args) {
                return Ok(false);
            }
            let row = table.make(op, args)?;
            rows.push(row)?;
            Ok(true)
        }
    }
}

// The operation behind which so many stand.
fn from_end(ops: &[Op], behind: usize) -> Op
    requires within { behind < length ops.now }
    ensures { slice_get ops.now (length ops.now - 1 - behind) ≡ Some result }
{
    ops[ops.len() - 1 - behind]
}

/// The row of the ground term of the data that a list of operations spells in preorder, if it spells one. It doesn't recur.
pub fn read(
    alloc: Global,
    table: &mut TermTable,
    algebra: &DataSpec,
    value: &Value,
) -> Result<Option<u32>, Memory>
    requires fit { AreFit (theory_of algebra.now) table.old }
    ensures longer { OnOk result (IsLonger table.old table.new) }
    ensures fit { OnOk result (AreFit (theory_of algebra.now) table.new) }
    ensures there { IfOk result (λ found. IfSome found (IsRow table.new)) }
    ensures spelled { IfOk result (λ found. IfSome found (λ row. value.now ≡ preorder (tree_at table.new row))) }
    ensures none { IfOk result (λ found. IfNone found (SpellsOne (theory_of algebra.now) value.now → ⊥)) }
{
    let ops = value.as_slice();
    let count = ops.len();
    let mut rows = Vec::new(alloc);
    for done in 0..count {
        let op = from_end(ops, done);
        if !read_op(alloc, table, algebra, &mut rows, op)? {
            return Ok(None);
        }
    }
    if rows.len() == 1 {
        Ok(Some(rows[0]))
    } else {
        Ok(None)
    }
}
