// What an engine answers of a term that it has evaluated before.

ghost use Rattle.spec_core.specs.Executable.{IsExecutable};
ghost use Rattle.spec_core.specs.Sorts.{FitsGround};
ghost use Rattle.spec_core.specs.Terms.{term_of};
ghost use Rattle.spec_core.specs.Theories.{theory_of};

use match_code::{Engine, Eval};
use rewriter::{Side, SideFault};
use script_text::read_typed_term;
use spec_core::code::Checked;
use spec_core::equation::DataSpec;
use spec_core::memory::Memory;
use spec_core::term::Term;
use spec_core::value::Value;
use std::alloc::Global;
use std::test::Fail;
use test_programs::accepted;

// A call of f over a number makes two calls over the number before it.
const TEXT: &str =
    "specification S [a] : noexit type Data is sorts N opns 0 : -> N s : N -> N two : N, N -> N f : N -> N \
eqns forall x, y, n : N ofsort N two(x, y) = x; f(0) = 0; f(s(n)) = two(f(n), f(n)); endtype behaviour stop endspec";

// f over 30. Over 0 it takes one use, and over one more twice as many and two, so over n it takes 3 * 2^n - 2.
const DEAR: &str =
    "f(s(s(s(s(s(s(s(s(s(s(s(s(s(s(s(s(s(s(s(s(s(s(s(s(s(s(s(s(s(s(0)))))))))))))))))))))))))))))))";

const USES: u64 = 3_221_225_470;

// Whether an answer is the value 0, the first operation.
fn is_zero(answer: Result<Value, Eval>) -> bool {
    match answer {
        Ok(value) => match value.as_slice() {
            [op] => op.0 == 0,
            _ => false,
        },
        Err(_) => false,
    }
}

// Whether an engine gives the value with as many uses as the term takes, then again, and then not with one less.
fn counts_what_it_remembers(alloc: Global, algebra: &DataSpec, dear: &Term) -> Result<bool, Memory>
    requires executable { IsExecutable (theory_of algebra.now) }
    requires fits { FitsGround (theory_of algebra.now) (term_of dear.now) }
{
    let mut engine = Engine::new(alloc, algebra)?;
    let first = is_zero(engine.value(alloc, dear, USES));
    let again = is_zero(engine.value(alloc, dear, USES));
    let less = engine.value(alloc, dear, USES - 1);
    Ok(first && again && matches!(less, Err(Eval::Spent)))
}

// Whether an engine tells the term from the successor of 0 and not from 0, and which of two terms is too dear.
fn judges(
    alloc: Global,
    algebra: &DataSpec,
    dear: &Term,
    zero: &Term,
    one: &Term,
) -> Result<bool, Memory>
    requires executable { IsExecutable (theory_of algebra.now) }
    requires dear { FitsGround (theory_of algebra.now) (term_of dear.now) }
    requires zero { FitsGround (theory_of algebra.now) (term_of zero.now) }
    requires one { FitsGround (theory_of algebra.now) (term_of one.now) }
{
    let mut engine = Engine::new(alloc, algebra)?;
    let same = engine.judge(alloc, zero, dear, USES);
    let other = engine.judge(alloc, dear, one, USES);
    let dearer = engine.judge(alloc, dear, one, USES - 1);
    let compared = engine.compare(alloc, one, dear, USES - 1);
    let right = SideFault {
        side: Side::Right,
        cause: Eval::Spent,
    };
    Ok(
        same == Ok(true)
            && other == Ok(false)
            && dearer == Err(Eval::Spent)
            && compared == Err(right),
    )
}

// The same of the specification's data.
fn are_asked(alloc: Global, checked: &Checked) -> Result<bool, Memory>
    requires executable { IsExecutable (theory_of checked.now.algebra) }
{
    let Ok(dear) = read_typed_term(alloc, DEAR.as_bytes(), checked) else {
        return Ok(false);
    };
    let Ok(zero) = read_typed_term(alloc, "0".as_bytes(), checked) else {
        return Ok(false);
    };
    let Ok(one) = read_typed_term(alloc, "s(0)".as_bytes(), checked) else {
        return Ok(false);
    };
    let counts = counts_what_it_remembers(alloc, &checked.algebra, &dear.term)?;
    let judged = judges(alloc, &checked.algebra, &dear.term, &zero.term, &one.term)?;
    Ok(counts && judged)
}

#[test]
fn what_is_remembered_counts_in_full(rt: HostRuntime) -> Result<(), Fail> {
    match accepted(rt.alloc(), TEXT)? {
        Some(checked) => {
            assert!(rt; are_asked(rt.alloc(), &checked)?);
        }
        None => {
            assert!(rt; false, "the specification is refused");
        }
    }
    Ok(())
}
