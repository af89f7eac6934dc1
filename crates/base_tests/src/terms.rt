// Terms: their copies, and when they are equal.

use crate::polish::term;
use std::test::Fail;

// A term is equal to its copy, and not to one with another variable or with an argument less.
#[test]
fn terms_are_compared_as_trees(rt: HostRuntime) -> Result<(), Fail> {
    let one = term(rt.alloc(), "ax0")?;
    assert!(rt; one.copy(rt.alloc())?.same(&one));
    for other in ["ay0", "sx", "a0x", "ax"] {
        assert!(rt; !one.same(&term(rt.alloc(), other)?), "{other}");
    }
    Ok(())
}
