// An uncovered pattern of an operation.

ghost use Rattle.std.specs.Prelude.{◌≡◌, IfOk, MatchOption, Some, map};
ghost use Rattle.std.specs.List.{slice_get};
ghost use Rattle.cover_check.specs.Cases.{IsCoveredOperation};
ghost use Rattle.cover_search.specs.Indexes.{IsIndexOf};
ghost use Rattle.cover_search.specs.Search.{variables, arguments_of};
ghost use Rattle.spec_core.specs.Cover.{IsPartial};
ghost use Rattle.spec_core.specs.Numbers.{sort_number};
ghost use Rattle.spec_core.specs.Orthogonality.{IsOrthogonal};
ghost use Rattle.spec_core.specs.Sorts.{FitsData};
ghost use Rattle.spec_core.specs.Theories.{operation_of, theory_of};

use crate::rows::rows_of;
use cover_search::{Arguments, DataIndex, are_in, uncovered_pattern};
use spec_core::equation::DataSpec;
use spec_core::items::{Op, Sort};
use spec_core::memory::Memory;
use spec_core::signature::OpDecl;
use spec_core::term::Term;
use std::alloc::Global;

// A variable of each sort.
fn variables_of(alloc: Global, sorts: &[Sort]) -> Result<Arguments, Memory>
    ensures { IfOk result (λ made. arguments_of made ≡ variables (map sort_number sorts.now)) }
{
    let mut items = Vec::new(alloc);
    for sort in sorts {
        items.push(Term::Var(sort.0))?;
    }
    Ok(Arguments { items })
}

/// A pattern that the operation's rows leave uncovered: nothing where the operation is covered, and one where it is partial. Each variable
/// of the pattern is one of its own, and its number is its sort.
pub fn uncovered_case(
    alloc: Global,
    algebra: &DataSpec,
    index: &DataIndex<'_>,
    op: Op,
    declaration: &OpDecl,
) -> Result<Option<Arguments>, Memory>
    requires fits { FitsData (theory_of algebra.now) }
    requires orthogonal { IsOrthogonal (theory_of algebra.now) }
    requires index { IsIndexOf index.now (theory_of algebra.now) }
    requires declared { slice_get (theory_of algebra.now).operations op.0 ≡ Some (operation_of declaration.now) }
    ensures covered { IfOk result (λ found. MatchOption found
        (IsCoveredOperation (theory_of algebra.now) op.0 (operation_of declaration.now)) (λ _. Unit {0})) }
    ensures uncovered { IfOk result (λ found. MatchOption found (Unit {0})
        (λ _. IsPartial (theory_of algebra.now) op.0)) }
{
    if index.heads.is_constructor(algebra, op) {
        return Ok(None);
    }
    if !are_in(&declaration.args, &index.inhabited) {
        return Ok(None);
    }
    let rows = rows_of(alloc, algebra, index, op)?;
    let start = variables_of(alloc, &declaration.args)?;
    uncovered_pattern(alloc, algebra, index, &rows, start)
}
