// The call.

ghost use Rattle.std.specs.Prelude.{IfOk};
ghost use Rattle.spec_core.specs.Executable.{IsExecutable};
ghost use Rattle.spec_core.specs.Sorts.{FitsGround};
ghost use Rattle.spec_core.specs.Terms.{term_of};
ghost use Rattle.spec_core.specs.Theories.{theory_of};
ghost use Rattle.command_equal.specs.Comparisons.{AnswersCause, AnswersFault, Comes, TermsCome};

use crate::answer::Answer;
use lotos_ast::text_kind::TextKind;
use match_code::Engine;
use rewriter::{Eval, Side, SideFault};
use script_text::fault::ScriptFault;
use script_text::read_typed_term;
use sort_overloads::resolution::TypedTerm;
use spec_core::code::Checked;
use spec_core::memory::Memory;
use spec_core::term::Term;
use std::alloc::Global;

// What comes of a term that has no value.
fn without_value(term: Term, cause: Eval) -> Result<Answer, Memory>
    ensures { IfOk result (AnswersCause term cause) }
{
    match cause {
        Eval::Spent => Ok(Answer::Spent(term)),
        Eval::TooLarge => Ok(Answer::TooLarge(term)),
        Eval::Memory => Err(Memory),
    }
}

// What comes of two terms of one sort.
fn compared(
    alloc: Global,
    checked: &Checked,
    first: Term,
    second: Term,
    budget: u64,
) -> Result<Answer, Memory>
    requires executable { IsExecutable (theory_of checked.now.algebra) }
    requires first { FitsGround (theory_of checked.now.algebra) (term_of first) }
    requires second { FitsGround (theory_of checked.now.algebra) (term_of second) }
    ensures { IfOk result (TermsCome (theory_of checked.now.algebra) (term_of first) (term_of second) budget) }
{
    let mut engine = Engine::new(alloc, &checked.algebra)?;
    match engine.compare(alloc, &first, &second, budget) {
        Ok(true) => Ok(Answer::Equal),
        Ok(false) => Ok(Answer::Unequal),
        Err(SideFault { side, cause }) => match side {
            Side::Left => without_value(first, cause),
            Side::Right => without_value(second, cause),
        },
    }
}

// What comes of a text that spells no term, the first or the second.
fn refused(fault: ScriptFault, line: u64) -> Result<Answer, Memory>
    ensures { IfOk result (AnswersFault fault line) }
{
    match fault {
        ScriptFault::Line { line: _, kind } => Ok(Answer::Refused { line, kind }),
        ScriptFault::Memory => Err(Memory),
    }
}

/// Whether two texts are equal terms of a specification: whether both are terms of one sort, and have one value, each with at most `budget`
/// uses of equations.
///
/// The texts are judged in their order: what is wrong with the first is told with line 1, with the second line 2, where a term whose sort
/// isn't that of the first is of the kind `Sort`. Then the first term is evaluated, and then the second.
#[tactic(auto, using(crate::proofs::Comparisons::terms_come, crate::proofs::Comparisons::of_two_sorts_come))]
pub fn compare_texts(
    alloc: Global,
    checked: &Checked,
    first: &[u8],
    second: &[u8],
    budget: u64,
) -> Result<Answer, Memory>
    requires executable { IsExecutable (theory_of checked.now.algebra) }
    ensures { IfOk result (Comes (theory_of checked.now.algebra) first.now second.now budget) }
{
    let left = match read_typed_term(alloc, first, checked) {
        Ok(found) => found,
        Err(fault) => return refused(fault, 1),
    };
    let right = match read_typed_term(alloc, second, checked) {
        Ok(found) => found,
        Err(fault) => return refused(fault, 2),
    };
    if left.sort.0 != right.sort.0 {
        return Ok(Answer::Refused {
            line: 2,
            kind: TextKind::Sort,
        });
    }
    compared(alloc, checked, left.term, right.term, budget)
}
