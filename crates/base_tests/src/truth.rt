// Truth values and their negation.

use crate::samples::{equation, names, operations};
use spec_core::equation::{DataSpec, Equation};
use spec_core::items::{Op, Sort};
use spec_core::memory::Memory;
use spec_core::signature::Signature;
use spec_core::term::Term;
use std::alloc::Global;

/// The sort of the truth values.
pub const TRUTH: Sort = Sort(0);

/// The constant `true`.
pub const TRUE: Op = Op(0);

/// The constant `false`.
pub const FALSE: Op = Op(1);

/// The negation, of which there may be no equation for a constant.
pub const NOT: Op = Op(2);

// The equation that says what the negation of a constant is.
fn negation(alloc: Global, of: Op, is: Op) -> Result<Equation, Memory> {
    let constant = Term::App(of, Vec::new(alloc));
    let left = Term::App(NOT, vec![in alloc; constant]?);
    equation(alloc, &[], left, Term::App(is, Vec::new(alloc)))
}

/// The data, with an equation for each constant, or for `true` alone.
pub fn truth(alloc: Global, whole: bool) -> Result<DataSpec, Memory> {
    let mut equations = Vec::new(alloc);
    equations.push(negation(alloc, TRUE, FALSE)?)?;
    if whole {
        equations.push(negation(alloc, FALSE, TRUE)?)?;
    }
    Ok(DataSpec {
        signature: Signature {
            sorts: names(alloc, &["Bool"])?,
            ops: operations(
                alloc,
                &[
                    ("true", &[], TRUTH),
                    ("false", &[], TRUTH),
                    ("not", &[TRUTH], TRUTH),
                ],
            )?,
        },
        equations,
    })
}
