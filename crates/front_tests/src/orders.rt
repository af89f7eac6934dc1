// Equations that aren't orthogonal, which no text brings before the path order: whether they are decreasing, worked out by hand.

use crate::texts::data;
use lotos_ast::refusal::FrontFault;
use path_order::check_decrease;
use spec_core::memory::Memory;
use std::alloc::Global;
use std::test::Fail;

// The type, up to its equations. Each of these stands at the beginning of line 2, or behind one that does.
const TYPE: &str =
    "type T is sorts N opns 0 : -> N s, f, g : N -> N two : N, N -> N eqns forall x, y, z : N ofsort N\n";

// The equations, and the name that the refusal tells, or `accepted`.
const ROWS: [(&str, &str); 5] = [
    // an argument that isn't below
    ("two(s(x), y) = two(x, z)", "two(x,z)"),
    // another variable
    ("f(x) = y", "y"),
    // a variable alone on the left
    ("x = f(x)", "accepted"),
    // an operation mentioned on the left alone
    ("f(g(x)) = x; g(x) = f(x)", "f(x)"),
    // the first side of the second premise
    ("x = 0, f(s(s(x))) = y => f(x) = z", "f(s(s(x)))"),
];

// What the check of these equations comes to.
fn decrease(alloc: Global, equations: &str) -> Result<String, Memory> {
    let mut text = String::from_str(alloc, TYPE)?;
    text.push_str(equations)?;
    text.push_str(" endtype")?;
    let algebra = data(alloc, false, text.as_str())?;
    match check_decrease(alloc, &algebra) {
        Ok(()) => Ok(String::from_str(alloc, "accepted")?),
        Err(FrontFault::Refused(refusal)) => match refusal.names.as_slice() {
            [] => Err(Memory),
            [name, ..] => Ok(String::from_str(alloc, name.as_str())?),
        },
        Err(FrontFault::Memory) => Err(Memory),
    }
}

#[test]
fn sides_are_below(rt: HostRuntime) -> Result<(), Fail> {
    for (equations, due) in &ROWS {
        let found = decrease(rt.alloc(), equations)?;
        assert_eq!(rt; found.as_str(), *due, "at {equations}");
    }
    Ok(())
}
