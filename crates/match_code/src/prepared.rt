// A checked specification, with what evaluates its terms.

ghost use Rattle.std.specs.Prelude.{◌≡◌, IfOk, IfErr};
ghost use Rattle.spec_core.specs.Budgets.{IsBeyond};
ghost use Rattle.spec_core.specs.Sorts.{FitsGround};
ghost use Rattle.spec_core.specs.Terms.{term_of};
ghost use Rattle.spec_core.specs.Theories.{theory_of};
ghost use Rattle.rewriter.specs.Answers.{SpellsValue, MeetsTooLarge, IsWithin};

use crate::evaluator::Evaluator;
use rewriter::Eval;
use spec_core::code::Checked;
use spec_core::term::Term;
use spec_core::value::Value;
use std::alloc::Global;

/// A checked specification, with what evaluates its terms. It is three references, and making one takes no memory.
#[derive(Drop)]
pub struct Prepared<'a> {
    pub checked: &'a Checked,
    pub evaluator: Evaluator<'a>,
    pub ghost same: { evaluator ≡ checked.now.algebra },
}

impl<'a> Prepared<'a> {
    /// The value of a ground term, as `Evaluator::value` answers it.
    pub fn value(&self, alloc: Global, term: &Term, budget: u64) -> Result<Value, Eval>
        requires fits { FitsGround (theory_of self.now.checked.now.algebra) (term_of term.now) }
        ensures value { IfOk result (SpellsValue (theory_of self.now.checked.now.algebra) (term_of term.now) budget) }
        ensures spent { IfErr result (λ e.
            e ≡ Eval.Spent → IsBeyond (theory_of self.now.checked.now.algebra) (term_of term.now) budget) }
        ensures too_large { IfErr result (λ e.
            e ≡ Eval.TooLarge → MeetsTooLarge (theory_of self.now.checked.now.algebra) (term_of term.now)) }
        ensures complete { IsWithin (theory_of self.now.checked.now.algebra) (term_of term.now) budget →
            IfErr result (λ e. e ≡ Eval.Memory) }
    {
        self.evaluator.value(alloc, term, budget)
    }
}
