// Look-ups in signatures.

use crate::samples::{names, operations};
use spec_core::items::{Op, Sort};
use spec_core::signature::Signature;
use std::test::Fail;

const NAT: Sort = Sort(0);

const BOOL: Sort = Sort(1);

// Two operations with one name.
const OPERATIONS: [(&str, &[Sort], Sort); 2] = [
    ("_eq_", &[NAT, NAT], BOOL),
    ("_eq_", &[BOOL, BOOL], BOOL),
];

// Names of sorts, and the sorts that they name.
const SORTS: [(&str, Option<Sort>); 2] = [("bool", Some(BOOL)), ("Real", None)];

// Names with the sorts of arguments and of results, and the operations that these say.
const WANTED: [(&str, &[Sort], Sort, Option<Op>); 4] = [
    ("_EQ_", &[BOOL, BOOL], BOOL, Some(Op(1))),
    ("_eq_", &[NAT, BOOL], BOOL, None),
    ("_eq_", &[NAT, NAT], NAT, None),
    ("_eq_", &[], BOOL, None),
];

// The first name that isn't found as is due.
fn first_wrong(signature: &Signature) -> &'static str {
    if signature.ops.len() > 9 || signature.sorts.len() > 9 {
        return "too many";
    }
    for (name, due) in &SORTS {
        if signature.sort(name) != *due {
            return name;
        }
    }
    for (name, args, sort, due) in &WANTED {
        if signature.op(name, args, *sort) != *due {
            return name;
        }
    }
    ""
}

// Names are found without case, overloads by their sorts, and what isn't declared isn't found.
#[test]
fn items_are_found_by_name_and_sorts(rt: HostRuntime) -> Result<(), Fail> {
    let signature = Signature {
        sorts: names(rt.alloc(), &["Nat", "Bool"])?,
        ops: operations(rt.alloc(), &OPERATIONS)?,
    };
    assert_eq!(rt; first_wrong(&signature), "");
    Ok(())
}
