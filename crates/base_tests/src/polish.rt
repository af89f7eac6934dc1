// Numbers, truth values and lists of numbers, with terms that are written by one letter for each operation, before its arguments.

use crate::samples::{equation, names, operations};
use spec_core::equation::{DataSpec, Equation};
use spec_core::items::{Op, Sort};
use spec_core::memory::Memory;
use spec_core::signature::Signature;
use spec_core::term::Term;
use std::alloc::Global;

/// The sort of the numbers.
pub const NUMBER: Sort = Sort(0);

const TRUTH: Sort = Sort(1);

const LIST: Sort = Sort(2);

// The operations by their numbers.
const OPERATIONS: [(&str, &[Sort], Sort); 17] = [
    ("0", &[], NUMBER),
    ("Succ", &[NUMBER], NUMBER),
    ("true", &[], TRUTH),
    ("false", &[], TRUTH),
    ("not", &[TRUTH], TRUTH),
    ("and", &[TRUTH, TRUTH], TRUTH),
    ("ack", &[NUMBER, NUMBER], NUMBER),
    ("dup", &[NUMBER], NUMBER),
    ("odd", &[NUMBER], NUMBER),
    ("first", &[NUMBER, NUMBER], NUMBER),
    ("less", &[NUMBER, NUMBER], TRUTH),
    ("zero", &[NUMBER], TRUTH),
    ("max", &[NUMBER, NUMBER], NUMBER),
    ("pick", &[NUMBER, NUMBER], NUMBER),
    ("nil", &[], LIST),
    ("cons", &[NUMBER, LIST], LIST),
    ("lows", &[LIST], TRUTH),
];

// The letters of the operations, in their order.
const LETTERS: &[u8] = b"0stfn&ado1<zmp_:l";

// The letters of the variables x, y, of a truth value and of a list, and their sorts.
const VARIABLES: &[u8] = b"xybk";

const SORTS: [Sort; 4] = [NUMBER, NUMBER, TRUTH, LIST];

// Equations: the two sides of each premise, and then the left and the right side.
const EQUATIONS: [&[&str]; 24] = [
    &["nt", "f"],
    &["nf", "t"],
    &["&tb", "b"],
    &["&fb", "f"],
    &["a0y", "sy"],
    &["asx0", "axs0"],
    &["asxsy", "axasxy"],
    &["d0", "0"],
    &["dsx", "ssdx"],
    &["o0", "s0"],
    &["osx", "ssox"],
    &["1xy", "x"],
    &["<x0", "f"],
    &["<0sy", "t"],
    &["<sxsy", "<xy"],
    &["z0", "t"],
    &["zsx", "f"],
    &["<xy", "t", "mxy", "y"],
    &["n<xy", "t", "mxy", "x"],
    &["<xy", "t", "zx", "t", "pxy", "0"],
    &["<xy", "t", "zx", "f", "pxy", "x"],
    &["<xy", "f", "pxy", "y"],
    &["l_", "t"],
    &["l:xk", "&zxlk"],
];

// The same operations with fewer equations: of doubling, of a call with premises and of others some calls match none.
const PARTIAL_EQUATIONS: [&[&str]; 8] = [
    &["nt", "f"],
    &["nf", "t"],
    &["axy", "1xx"],
    &["d0", "0"],
    &["1xy", "x"],
    &["z0", "t"],
    &["zsx", "f"],
    &["zx", "t", "pxy", "0"],
];

// The number at which a letter stands, if it is there.
fn place(letters: &[u8], letter: u8) -> Option<u32> {
    for (number, one) in letters.iter().enumerate() {
        if *one == letter {
            return u32::try_from(number).ok();
        }
    }
    None
}

// Takes the arguments of an operation from the terms behind it, of which the next is the last, and adds the term over them.
fn add_over(alloc: Global, behind: &mut Vec<Term>, op: u32) -> Result<(), Memory> {
    let mut args = Vec::new(alloc);
    if let Some((_, sorts, _)) = OPERATIONS.get(op as usize) {
        for _ in *sorts {
            if let Some(arg) = behind.pop() {
                args.push(arg)?;
            }
        }
    }
    behind.push(Term::App(Op(op), args))?;
    Ok(())
}

/// The term that is written so.
pub fn term(alloc: Global, text: &str) -> Result<Term, Memory> {
    let mut behind = Vec::new(alloc);
    for letter in text.as_bytes().iter().rev() {
        if let Some(variable) = place(VARIABLES, *letter) {
            behind.push(Term::Var(variable))?;
        } else if let Some(op) = place(LETTERS, *letter) {
            add_over(alloc, &mut behind, op)?;
        }
    }
    behind.pop().ok_or(Memory)
}

// The equation with these sides, those of its premises first.
fn equation_of(alloc: Global, sides: &[&str]) -> Result<Equation, Memory> {
    let (premises, (left, right)) = match sides {
        [premises @ .., left, right] => (premises, (left, right)),
        _ => return Err(Memory),
    };
    let mut made = equation(alloc, &SORTS, term(alloc, left)?, term(alloc, right)?)?;
    for pair in premises.chunks(2) {
        if let [left, right] = pair {
            made.premises
                .push((term(alloc, left)?, term(alloc, right)?))?;
        }
    }
    Ok(made)
}

// The data with these equations.
fn data_with(alloc: Global, all: &[&[&str]]) -> Result<DataSpec, Memory> {
    let mut equations = Vec::new(alloc);
    for sides in all {
        equations.push(equation_of(alloc, sides)?)?;
    }
    Ok(DataSpec {
        signature: Signature {
            sorts: names(alloc, &["N", "Bool", "L"])?,
            ops: operations(alloc, &OPERATIONS)?,
        },
        equations,
    })
}

/// Numbers, truth values and lists, with functions over them: Ackermann's, doubling, the next odd number, comparisons, and two with premises.
pub fn data(alloc: Global) -> Result<DataSpec, Memory> {
    data_with(alloc, &EQUATIONS)
}

/// The same operations, of which some are partial.
pub fn partial_data(alloc: Global) -> Result<DataSpec, Memory> {
    data_with(alloc, &PARTIAL_EQUATIONS)
}
