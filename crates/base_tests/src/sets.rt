// Sets of small numbers.

use equation_sets::set::NumberSet;
use std::process::Abort;
use std::test::Fail;

#[test]
fn a_set_has_what_was_put_in_below_its_bound(rt: HostRuntime) -> Result<(), Fail> {
    let mut set = NumberSet::new(rt.alloc(), 3)?;
    assert!(rt; !set.has(2));
    set.add(2);
    set.add(7);
    assert!(rt; set.has(2));
    assert!(rt; !set.has(0));
    assert!(rt; !set.has(7));
    Ok(())
}
