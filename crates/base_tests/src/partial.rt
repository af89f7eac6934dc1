// The partial operations of data, which no command tells. conformance/partial shows which sorts are open for them.

ghost use Rattle.spec_core.specs.Orthogonality.{IsOrthogonal};
ghost use Rattle.spec_core.specs.Sorts.{FitsData};
ghost use Rattle.spec_core.specs.Theories.{theory_of};

use crate::asked::are_orthogonal;
use crate::polish::partial_data;
use crate::truth::{NOT, truth};
use cover_check::partial_operations;
use cover_search::DataIndex;
use spec_core::equation::DataSpec;
use spec_core::items::Op;
use spec_core::memory::Memory;
use std::alloc::Global;
use std::test::Fail;

// The partial operations, by ascending number.
fn partial(alloc: Global, algebra: &DataSpec) -> Result<Vec<Op>, Memory>
    requires fits { FitsData (theory_of algebra.now) }
    requires orthogonal { IsOrthogonal (theory_of algebra.now) }
{
    let index = DataIndex::of(alloc, algebra)?;
    let set = partial_operations(alloc, algebra, &index)?;
    let mut all = Vec::new(alloc);
    for (i, _) in algebra.signature.ops.iter().enumerate() {
        let op = Op(i as u32);
        if set.has(op.0) {
            all.push(op)?;
        }
    }
    Ok(all)
}

// Whether the data are orthogonal and these are their partial operations.
fn are_partial(alloc: Global, algebra: &DataSpec, due: &[Op]) -> Result<bool, Memory> {
    if !are_orthogonal(alloc, algebra)? {
        return Ok(false);
    }
    let ops = partial(alloc, algebra)?;
    Ok(ops.as_slice() == due)
}

// Each call over ground constructor terms is decided, or one of two isn't.
#[test]
fn a_negation_is_partial_without_an_equation(rt: HostRuntime) -> Result<(), Fail> {
    let whole = truth(rt.alloc(), true)?;
    assert!(rt; are_partial(rt.alloc(), &whole, &[])?);
    let half = truth(rt.alloc(), false)?;
    assert!(rt; are_partial(rt.alloc(), &half, &[NOT])?);
    Ok(())
}

// An operation without equations is a constructor: so n(&(t,t)), d(s(0)) and z(o(0)) match no equation, and the truth values have others
// than constants, so that the equation of p leaves cases out.
#[test]
fn four_operations_are_partial(rt: HostRuntime) -> Result<(), Fail> {
    let algebra = partial_data(rt.alloc())?;
    assert!(rt; are_partial(rt.alloc(), &algebra, &[Op(4), Op(7), Op(11), Op(13)])?);
    Ok(())
}
