// Partial operations.

ghost use Rattle.std.specs.Prelude.{◌≡◌, ◌↔◌, IfOk, OnOk, IsTrue, Some};
ghost use Rattle.std.specs.List.{slice_get};
ghost use Rattle.cover_check.specs.Opening.{ArePartial};
ghost use Rattle.cover_check.specs.Marks.{IsMarked};
ghost use Rattle.cover_search.specs.Indexes.{IsIndexOf};
ghost use Rattle.spec_core.specs.Cover.{IsPartial};
ghost use Rattle.spec_core.specs.Orthogonality.{IsOrthogonal};
ghost use Rattle.spec_core.specs.Sorts.{FitsData};
ghost use Rattle.spec_core.specs.Theories.{operation_of, theory_of};

use crate::cases::uncovered_case;
use cover_search::DataIndex;
use equation_sets::set::NumberSet;
use spec_core::equation::DataSpec;
use spec_core::items::Op;
use spec_core::memory::Memory;
use spec_core::signature::OpDecl;
use std::alloc::Global;

// Whether an operation is partial: whether a pattern of it is uncovered.
fn is_partial(
    alloc: Global,
    algebra: &DataSpec,
    index: &DataIndex<'_>,
    op: Op,
    declaration: &OpDecl,
) -> Result<bool, Memory>
    requires fits { FitsData (theory_of algebra.now) }
    requires orthogonal { IsOrthogonal (theory_of algebra.now) }
    requires index { IsIndexOf index.now (theory_of algebra.now) }
    requires declared { slice_get (theory_of algebra.now).operations op.0 ≡ Some (operation_of declaration.now) }
    ensures { IfOk result (λ yes. IsTrue yes ↔ IsPartial (theory_of algebra.now) op.0) }
{
    match uncovered_case(alloc, algebra, index, op, declaration)? {
        None => Ok(false),
        Some(_) => Ok(true),
    }
}

// Puts an operation into the set, if it is partial.
fn mark(
    alloc: Global,
    algebra: &DataSpec,
    index: &DataIndex<'_>,
    op: Op,
    declaration: &OpDecl,
    set: &mut NumberSet,
) -> Result<(), Memory>
    requires fits { FitsData (theory_of algebra.now) }
    requires orthogonal { IsOrthogonal (theory_of algebra.now) }
    requires index { IsIndexOf index.now (theory_of algebra.now) }
    requires declared { slice_get (theory_of algebra.now).operations op.0 ≡ Some (operation_of declaration.now) }
    ensures { OnOk result (IsMarked (theory_of algebra.now) op.0 set.old set.new) }
{
    if !is_partial(alloc, algebra, index, op, declaration)? {
        return Ok(());
    }
    set.add(op.0);
    Ok(())
}

/// The set of partial operations: of each of them some call over ground constructor terms isn't decided by a full group of equations.
pub fn partial_operations(
    alloc: Global,
    algebra: &DataSpec,
    index: &DataIndex<'_>,
) -> Result<NumberSet, Memory>
    requires fits { FitsData (theory_of algebra.now) }
    requires orthogonal { IsOrthogonal (theory_of algebra.now) }
    requires index { IsIndexOf index.now (theory_of algebra.now) }
    ensures partial { IfOk result (ArePartial (theory_of algebra.now)) }
{
    let mut set = NumberSet::new(alloc, algebra.signature.ops.len())?;
    for (i, declaration) in algebra.signature.ops.iter().enumerate() {
        let op = Op(i as u32);
        mark(alloc, algebra, index, op, declaration, &mut set)?;
    }
    Ok(set)
}
