// The left sides of an operation's full groups.

ghost use Rattle.std.specs.Prelude.{◌≡◌, IfOk, OnOk};
ghost use Rattle.cover_check.specs.Cases.{AreRows};
ghost use Rattle.cover_check.specs.Rows.{IsRowAdded};
ghost use Rattle.cover_search.specs.Heads.{equations_at};
ghost use Rattle.cover_search.specs.Indexes.{IsIndexOf};
ghost use Rattle.cover_search.specs.Search.{rows_of};
ghost use Rattle.spec_core.specs.Lists.{Each, IsOneOf};
ghost use Rattle.spec_core.specs.Orthogonality.{IsOrthogonal};
ghost use Rattle.spec_core.specs.Sorts.{FitsData};
ghost use Rattle.spec_core.specs.Theories.{equation_of, theory_of};

use cover_groups::has_full_group;
use cover_search::{Arguments, DataIndex, Headed};
use spec_core::equation::{DataSpec, Equation};
use spec_core::items::Op;
use spec_core::memory::Memory;
use spec_core::term::{Term, copy_terms};
use std::alloc::Global;

// Adds the arguments of an equation's left side, if it is the operation's and its group is full.
fn add_row(
    alloc: Global,
    algebra: &DataSpec,
    index: &DataIndex<'_>,
    op: Op,
    equation: &Equation,
    rows: &mut Vec<Arguments>,
) -> Result<(), Memory>
    requires fits { FitsData (theory_of algebra.now) }
    requires orthogonal { IsOrthogonal (theory_of algebra.now) }
    requires index { IsIndexOf index.now (theory_of algebra.now) }
    requires listed { IsOneOf (equation_of equation.now) (theory_of algebra.now).equations }
    ensures { OnOk result (IsRowAdded (theory_of algebra.now) op.0 (equation_of equation.now)
        (rows_of rows.old.items) (rows_of rows.new.items)) }
{
    match &equation.left {
        Term::Var(_) => Ok(()),
        Term::App(head, args) => {
            if head.0 != op.0 {
                return Ok(());
            }
            if has_full_group(alloc, algebra, index, equation)? {
                let items = copy_terms(alloc, args)?;
                rows.push(Arguments { items })?;
            }
            Ok(())
        }
    }
}

// The arguments of the left sides of an operation's full groups among these equations, in their order.
fn rows_among(
    alloc: Global,
    algebra: &DataSpec,
    index: &DataIndex<'_>,
    op: Op,
    headed: &[Headed<'_>],
) -> Result<Vec<Arguments>, Memory>
    requires fits { FitsData (theory_of algebra.now) }
    requires orthogonal { IsOrthogonal (theory_of algebra.now) }
    requires index { IsIndexOf index.now (theory_of algebra.now) }
    requires listed { Each (λ e. IsOneOf e (theory_of algebra.now).equations) (equations_at headed.now) }
    ensures { IfOk result (λ rows. AreRows (theory_of algebra.now) op.0 (equations_at headed.now) (rows_of rows.items)) }
{
    let mut rows = Vec::new(alloc);
    for one in headed {
        add_row(alloc, algebra, index, op, one.equation, &mut rows)?;
    }
    Ok(rows)
}

/// The arguments of the left sides of an operation's full groups, in the order of equations.
pub fn rows_of(
    alloc: Global,
    algebra: &DataSpec,
    index: &DataIndex<'_>,
    op: Op,
) -> Result<Vec<Arguments>, Memory>
    requires fits { FitsData (theory_of algebra.now) }
    requires orthogonal { IsOrthogonal (theory_of algebra.now) }
    requires index { IsIndexOf index.now (theory_of algebra.now) }
    ensures { IfOk result (λ rows. AreRows (theory_of algebra.now) op.0 (theory_of algebra.now).equations (rows_of rows.items)) }
{
    match index.heads.headed(op) {
        None => Ok(Vec::new(alloc)),
        Some(headed) => rows_among(alloc, algebra, index, op, headed),
    }
}
