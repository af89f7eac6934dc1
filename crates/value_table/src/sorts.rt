// The sorts of the terms of rows.

ghost use Rattle.std.specs.Prelude.{◌≡◌, ◌↔◌, IfNone, IfSome, IsTrue, None, Some, map};
ghost use Rattle.std.specs.List.{slice_get};
ghost use Rattle.spec_core.specs.Lists.{Each};
ghost use Rattle.spec_core.specs.Numbers.{sort_number};
ghost use Rattle.spec_core.specs.Sorts.{HasSort, HaveSorts, no_variables};
ghost use Rattle.spec_core.specs.Terms.{terms};
ghost use Rattle.spec_core.specs.Theories.{operation_of, theory_of};
ghost use Rattle.value_table.specs.Tables.{tree_at, AreFit, IsRow};

use crate::table::TermTable;
use spec_core::equation::DataSpec;
use spec_core::items::{Op, Sort};
use spec_core::signature::OpDecl;

/// The declaration of an operation. It takes no memory.
pub fn declaration_of(algebra: &DataSpec, op: Op) -> Option<&OpDecl>
    ensures some { IfSome result (λ d. slice_get (theory_of algebra.now).operations op.0 ≡ Some (operation_of d.now)) }
    ensures none { IfNone result (slice_get (theory_of algebra.now).operations op.0 ≡ None) }
{
    let place = op.0 as usize;
    if place < algebra.signature.ops.len() {
        Some(&algebra.signature.ops[place])
    } else {
        None
    }
}

/// Whether the term of a row has this sort. It takes no memory, and looks at its operation alone.
pub fn has_sort(table: &TermTable, algebra: &DataSpec, row: u32, sort: Sort) -> bool
    requires fit { AreFit (theory_of algebra.now) table.now }
    requires there { IsRow table.now row }
    ensures decides { IsTrue result ↔ HasSort (theory_of algebra.now) no_variables (tree_at table.now row) sort.0 }
{
    let (op, _) = table.at(row);
    match declaration_of(algebra, op) {
        None => false,
        Some(declared) => declared.result.0 == sort.0,
    }
}

/// Whether the terms of rows have these sorts, one by one. It takes no memory.
pub fn have_sorts(table: &TermTable, algebra: &DataSpec, rows: &[u32], sorts: &[Sort]) -> bool
    requires fit { AreFit (theory_of algebra.now) table.now }
    requires there { Each (IsRow table.now) rows.now }
    ensures decides { IsTrue result ↔
        HaveSorts (theory_of algebra.now) no_variables (terms (map (tree_at table.now) rows.now)) (map sort_number sorts.now) }
{
    match rows {
        [] => sorts.is_empty(),
        [row, others @ ..] => match sorts {
            [] => false,
            [sort, rest @ ..] => {
                has_sort(table, algebra, *row, *sort) && have_sorts(table, algebra, others, rest)
            }
        },
    }
}
