// What evaluation gives, and what it costs, by the machine that goes by the definition step by step.

use crate::polish::{data, partial_data, term};
use spec_core::equation::DataSpec;
use spec_core::memory::Memory;
use std::alloc::Global;
use std::test::Fail;
use value_reference::{EvaluationFault, plain_value};

// Terms, the values that they come to, and after how many uses of equations; worked out by hand from docs/LANGUAGE.md. The values of these
// terms and more, with as many uses and with one less, are asked of `equal` by the cases of conformance/evaluation.
const ROWS: [(&str, &str, u64); 15] = [
    ("0", "0", 0),
    (":s0_", ":s0_", 0),
    ("nf", "t", 1),
    // less of 0 and 1, and the first equation of and
    ("&t<0s0", "t", 2),
    ("as0s0", "sss0", 4),
    ("ass0s0", "sssss0", 14),
    ("ass0sss0", "sssssssss0", 44),
    ("dds0", "ssss0", 5),
    ("oos0", "sssssss0", 6),
    ("1m0s0o0", "s0", 4),
    // doubling, a premise that fails, one that holds, and max itself
    ("mds0s0", "ss0", 8),
    // doubling, two premises of which the second fails, two that hold, and pick itself
    ("ps0ds0", "s0", 9),
    ("p0s0", "0", 3),
    ("l:0_", "t", 4),
    ("l:0:d0:s0_", "f", 11),
];

// The same where operations are partial: d(0) = 0, z(0) = t, z(s(x)) = f, first(x,y) = x, a(x,y) = first(x,x), and p(x,y) = 0 where z(x) = t.
const PARTIAL_ROWS: [(&str, &str, u64); 12] = [
    ("ds0", "ds0", 0),
    ("dd0", "0", 2),
    ("dds0", "dds0", 0),
    // the premise, and the equation itself
    ("p00", "0", 2),
    // the premise alone, which fails: so the call stays
    ("ps00", "ps00", 1),
    ("sps00", "sps00", 1),
    // the argument, first itself, and the argument again
    ("1ps000", "ps00", 3),
    ("1s0ps00", "s0", 2),
    // the argument, a itself, the argument twice, first itself, and the argument again
    ("aps000", "ps00", 6),
    ("zsps00", "f", 2),
    ("zps00", "zps00", 1),
    // the argument, and the argument again in the premise
    ("pps000", "pps000", 2),
];

// Whether the term comes to this value after so many uses, with just so many allowed.
fn comes_to(
    alloc: Global,
    algebra: &DataSpec,
    row: &(&str, &str, u64),
) -> Result<bool, EvaluationFault> {
    let (text, value, uses) = row;
    let found = plain_value(alloc, algebra, &term(alloc, text)?, *uses)?;
    let due = term(alloc, value)?;
    Ok(found.uses == *uses && found.value.same(&due))
}

// Whether the term has no value within so many uses.
fn is_spent(alloc: Global, algebra: &DataSpec, text: &str, uses: u64) -> Result<bool, Memory> {
    match plain_value(alloc, algebra, &term(alloc, text)?, uses) {
        Ok(_) => Ok(false),
        Err(EvaluationFault::Spent) => Ok(true),
        Err(EvaluationFault::Memory) => Err(Memory),
    }
}

// Whether the term comes to its value after just so many uses, and to none within one less.
fn costs(
    alloc: Global,
    algebra: &DataSpec,
    row: &(&str, &str, u64),
) -> Result<bool, EvaluationFault> {
    let (text, _, uses) = row;
    if *uses > 0 && !is_spent(alloc, algebra, text, *uses - 1)? {
        return Ok(false);
    }
    comes_to(alloc, algebra, row)
}

#[test]
fn values_cost_what_the_definition_says(rt: HostRuntime) -> Result<(), Fail> {
    let algebra = data(rt.alloc())?;
    for row in &ROWS {
        assert!(rt; costs(rt.alloc(), &algebra, row)?, "at {}", row.0);
    }
    Ok(())
}

#[test]
fn calls_that_match_no_equation_are_values(rt: HostRuntime) -> Result<(), Fail> {
    let algebra = partial_data(rt.alloc())?;
    for row in &PARTIAL_ROWS {
        assert!(rt; costs(rt.alloc(), &algebra, row)?, "at {}", row.0);
    }
    Ok(())
}

// A variable has no value, and neither has a call over one.
#[test]
fn loose_terms_have_no_value(rt: HostRuntime) -> Result<(), Fail> {
    let algebra = data(rt.alloc())?;
    assert!(rt; is_spent(rt.alloc(), &algebra, "sx", 100)?);
    Ok(())
}
