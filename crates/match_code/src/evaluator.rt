// What evaluates terms, and remembers nothing from one to the next.

ghost use Rattle.std.specs.Prelude.{◌≡◌, IfOk, IfErr};
ghost use Rattle.spec_core.specs.Budgets.{IsBeyond};
ghost use Rattle.spec_core.specs.Sorts.{FitsGround};
ghost use Rattle.spec_core.specs.Terms.{term_of};
ghost use Rattle.spec_core.specs.Theories.{theory_of};
ghost use Rattle.rewriter.specs.Answers.{SpellsValue, MeetsTooLarge, IsWithin};
ghost use Rattle.match_code.specs.Rights.{AreForms};

use crate::engine::evaluate;
use crate::rights::Forms;
use crate::state::Store;
use rewriter::Eval;
use spec_core::equation::DataSpec;
use spec_core::term::Term;
use spec_core::value::Value;
use std::alloc::Global;
use std::marker::Model;

/// What evaluates the terms of executable data. A contract sees the data.
#[derive(Drop)]
pub struct Evaluator<'a> {
    algebra: &'a DataSpec,
    forms: &'a Forms,
}

impl<'a> Model for Evaluator<'a> {
    ghost use Rattle.std.specs.Coded.{codes};
    ghost use Rattle.spec_core.specs.contracts.equation.DataSpec as d;
    ghost use Rattle.spec_core.specs.declared.equation.DataSpec.{DataSpec};
    ghost use Rattle.spec_core.specs.Theories.{theory_of};
    ghost use Rattle.match_code.specs.Rights.{AreForms};

    ghost Value = { DataSpec };

    ghost coded = { Prim.hlevel (codes, d.the_row.coded) };

    ghost view = { λ e. e.algebra.now };

    ghost invariant = { λ e. AreForms (theory_of e.algebra.now) e.forms.now };
}

// The value of a ground term, with nothing remembered from before.
fn value_of(
    alloc: Global,
    algebra: &DataSpec,
    forms: &Forms,
    term: &Term,
    budget: u64,
) -> Result<Value, Eval>
    requires forms { AreForms (theory_of algebra.now) forms.now }
    requires fits { FitsGround (theory_of algebra.now) (term_of term.now) }
    ensures value { IfOk result (SpellsValue (theory_of algebra.now) (term_of term.now) budget) }
    ensures spent { IfErr result (λ e. e ≡ Eval.Spent → IsBeyond (theory_of algebra.now) (term_of term.now) budget) }
    ensures too_large { IfErr result (λ e. e ≡ Eval.TooLarge → MeetsTooLarge (theory_of algebra.now) (term_of term.now)) }
    ensures complete { IsWithin (theory_of algebra.now) (term_of term.now) budget → IfErr result (λ e. e ≡ Eval.Memory) }
{
    let mut bound = Vec::from_elem(alloc, 0u32, forms.room)?;
    let mut store = Store::closed(alloc);
    let value = evaluate(alloc, algebra, forms, &mut store, &mut bound, term, budget)?;
    Ok(value)
}

impl<'a> Evaluator<'a> {
    /// The evaluator of executable data, by what was made of their equations. It takes no memory.
    pub fn new(algebra: &'a DataSpec, forms: &'a Forms) -> Evaluator<'a>
        requires forms { AreForms (theory_of algebra.now) forms.now }
        ensures algebra { result ≡ algebra.now }
    {
        Evaluator { algebra, forms }
    }

    /// The value of a ground term, with at most `budget` uses of equations. `Spent` means that it takes more of them, and `TooLarge` that
    /// its evaluation meets a value of more than 65,536 symbols; where both hold, either may be answered. It recurs as deep as the term and
    /// the equations nest, and not as deep as values or evaluations are.
    pub fn value(&self, alloc: Global, term: &Term, budget: u64) -> Result<Value, Eval>
        requires fits { FitsGround (theory_of self.now) (term_of term.now) }
        ensures value { IfOk result (SpellsValue (theory_of self.now) (term_of term.now) budget) }
        ensures spent { IfErr result (λ e. e ≡ Eval.Spent → IsBeyond (theory_of self.now) (term_of term.now) budget) }
        ensures too_large { IfErr result (λ e. e ≡ Eval.TooLarge → MeetsTooLarge (theory_of self.now) (term_of term.now)) }
        ensures complete { IsWithin (theory_of self.now) (term_of term.now) budget → IfErr result (λ e. e ≡ Eval.Memory) }
    {
        value_of(alloc, self.algebra, self.forms, term, budget)
    }
}
