// Whether two terms are equal, by the one call that no command makes. What `equal` says of terms is shown by conformance/evaluation.

ghost use Rattle.std.specs.Prelude.{IsTrue};
ghost use Rattle.spec_core.specs.Code.{program_of};
ghost use Rattle.spec_core.specs.Ready.{IsReady};
ghost use Rattle.spec_core.specs.Sorts.{FitsGround};
ghost use Rattle.spec_core.specs.Terms.{term_of};
ghost use Rattle.spec_core.specs.Theories.{theory_of};

use data_fits::has_sort;
use rewriter::judge;
use spec_core::code::Checked;
use spec_core::equation::DataSpec;
use spec_core::items::{Op, Sort};
use spec_core::memory::Memory;
use spec_core::term::Term;
use std::alloc::Global;
use std::test::Fail;
use test_programs::over_small_data;

// The operations of the numbers: 0, the next number and the one before.
const OPERATIONS: [Op; 3] = [Op(2), Op(3), Op(4)];

// The operations with these places, each over the one before.
fn term(alloc: Global, places: &[usize]) -> Result<Term, Memory> {
    let mut all = Vec::new(alloc);
    for place in places {
        if *place < OPERATIONS.len() {
            all = vec![in alloc; Term::App(OPERATIONS[*place], all)]?;
        }
    }
    all.pop().ok_or(Memory)
}

fn is_number(algebra: &DataSpec, term: &Term) -> bool
    ensures { IsTrue result → FitsGround (theory_of algebra.now) (term_of term.now) }
{
    has_sort(term, algebra, &[], Sort(1))
}

// Whether two numbers are equal, with so many uses of equations for each; None where that can't be said.
fn equal(
    alloc: Global,
    checked: &Checked,
    sides: (&Term, &Term),
    budget: u64,
) -> Result<Option<bool>, Memory>
    requires ready { IsReady (program_of checked.now) }
{
    if !is_number(&checked.algebra, sides.0) || !is_number(&checked.algebra, sides.1) {
        return Err(Memory);
    }
    match judge(alloc, &checked.algebra, sides.0, sides.1, budget) {
        Ok(same) => Ok(Some(same)),
        Err(_) => Ok(None),
    }
}

// The number before the next of 0 is 0, by one use, and isn't the next of 0.
#[test]
fn numbers_are_judged(rt: HostRuntime) -> Result<(), Fail> {
    let alloc = rt.alloc();
    let checked = over_small_data(alloc, "noexit", "stop")?.expect(&rt, "accepted");
    let before = term(alloc, &[0, 1, 2])?;
    let zero = term(alloc, &[0])?;
    let one = term(alloc, &[0, 1])?;
    assert_eq!(rt; equal(alloc, &checked, (&before, &zero), 1)?, Some(true));
    assert_eq!(rt; equal(alloc, &checked, (&before, &one), 1)?, Some(false));
    assert_eq!(rt; equal(alloc, &checked, (&before, &zero), 0)?, None);
    Ok(())
}
