// The window of one sort, which no command asks for alone. conformance/windows has the windows of sorts of many kinds.

use crate::asked::are_orthogonal;
use crate::truth::{FALSE, TRUE, TRUTH, truth};
use sort_windows::window;
use spec_core::items::Op;
use std::test::Fail;

// Whether the negation has both equations, how many values are wanted, which there are, and whether these are all.
const ROWS: [(bool, u32, &[Op], bool); 5] = [
    (true, 1, &[TRUE], false),
    (true, 2, &[TRUE, FALSE], true),
    (true, 10, &[TRUE, FALSE], true),
    (false, 1, &[TRUE], false),
    (false, 10, &[TRUE, FALSE], false),
];

// true and false alone are constructors of their sort; where not(false) is a value too, they aren't all.
#[test]
fn truth_values_are_two(rt: HostRuntime) -> Result<(), Fail> {
    for (whole, count, due, complete) in &ROWS {
        let algebra = truth(rt.alloc(), *whole)?;
        assert!(rt; algebra.signature.ops.len() < 99);
        let asked = are_orthogonal(rt.alloc(), &algebra)?;
        assert!(rt; asked);
        let found = window(rt.alloc(), &algebra, TRUTH, *count)?;
        let mut ops = Vec::new(rt.alloc());
        for value in &found.values {
            ops.extend_from_slice(value.as_slice())?;
        }
        assert_eq!(rt; (ops.as_slice(), found.complete), (*due, *complete));
    }
    Ok(())
}
