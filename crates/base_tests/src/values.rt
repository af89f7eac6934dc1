// Values: their copies, their sizes and their order.

use spec_core::items::Op;
use spec_core::memory::Memory;
use spec_core::value::Value;
use std::alloc::Global;
use std::test::Fail;

fn value(alloc: Global, ops: &[Op]) -> Result<Value, Memory> {
    Ok(Value::new(Vec::from_slice(alloc, ops)?))
}

// A copy is equal, and lists of one length with different operations are not.
#[test]
fn values_are_compared_by_their_operations(rt: HostRuntime) -> Result<(), Fail> {
    let succ_zero = value(rt.alloc(), &[Op(11), Op(10)])?;
    let copied = succ_zero.copy(rt.alloc())?;
    assert!(rt; copied.same(&succ_zero) && copied.size() == 2 && !succ_zero.is_before(&copied));
    let succ_succ = value(rt.alloc(), &[Op(11), Op(11)])?;
    assert!(rt; !succ_zero.same(&succ_succ) && succ_zero.is_before(&succ_succ));
    assert!(rt; value(rt.alloc(), &[Op(12)])?.is_before(&succ_zero));
    Ok(())
}
