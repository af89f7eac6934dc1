// An engine, which is asked for values.

ghost use Rattle.std.specs.Prelude.{◌≡◌, ◌⊎◌, ◌↔◌, IfOk, IfErr, OnOk, IsTrue, length};
ghost use Rattle.spec_core.specs.Budgets.{IsBeyond};
ghost use Rattle.spec_core.specs.Equality.{Equal};
ghost use Rattle.spec_core.specs.Executable.{IsExecutable};
ghost use Rattle.spec_core.specs.Sorts.{FitsGround};
ghost use Rattle.spec_core.specs.Terms.{term_of};
ghost use Rattle.spec_core.specs.Theories.{Theory, theory_of};
ghost use Rattle.rewriter.specs.Answers.{SpellsValue, MeetsTooLarge, IsWithin, AreWithin, at_side};
ghost use Rattle.rewriter.specs.Calls.{HasRoom};
ghost use Rattle.match_code.specs.Rights.{AreForms};
ghost use Rattle.match_code.specs.States.{IsCause, IsEngine, IsStore};

use crate::rights::Forms;
use crate::run::run;
use crate::state::{Runs, Store};
use rewriter::step::push_instance;
use rewriter::{Eval, Side, SideFault};
use spec_core::equation::DataSpec;
use spec_core::memory::Memory;
use spec_core::term::Term;
use spec_core::value::Value;
use std::alloc::Global;
use std::mem;
use value_nodes::spelling::spell;

/// What evaluates the terms of executable data, and remembers values from one term to the next.
#[derive(Drop)]
pub struct Engine<'a> {
    /// The data.
    pub algebra: &'a DataSpec,
    forms: Forms,
    bound: Vec<u32>,
    store: Store,
}

// What the next evaluation begins with: what was kept, and no operation is given up; or nothing, where it is full.
fn next_store(alloc: Global, store: Store) -> Store
    ensures store { (theory : Theory) → IsStore theory store → IsStore theory result }
{
    if store.is_full() {
        return Store::new(alloc);
    }
    let mut kept = store;
    kept.memo.calm();
    kept
}

/// Evaluates a term from its steps to its value.
pub fn evaluate(
    alloc: Global,
    algebra: &DataSpec,
    forms: &Forms,
    store: &mut Store,
    bound: &mut [u32],
    term: &Term,
    budget: u64,
) -> Result<Value, Eval>
    requires forms { AreForms (theory_of algebra.now) forms.now }
    requires room { HasRoom (theory_of algebra.now) (length bound.old) }
    requires store { IsStore (theory_of algebra.now) store.old }
    requires fits { FitsGround (theory_of algebra.now) (term_of term.now) }
    ensures room { length bound.new ≡ length bound.old }
    ensures store { IfOk result (λ v. IsStore (theory_of algebra.now) store.new) }
    ensures value { IfOk result (SpellsValue (theory_of algebra.now) (term_of term.now) budget) }
    ensures cause { IfErr result (IsCause (theory_of algebra.now) (term_of term.now) budget) }
{
    let mut runs = Runs::new(alloc);
    push_instance(&mut runs.todo, bound, term)?;
    let node = run(alloc, algebra, forms, store, &mut runs, bound, term, budget)?;
    let value = spell(alloc, &store.nodes, node)?;
    Ok(value)
}

impl<'a> Engine<'a> {
    /// An engine that remembers nothing yet.
    pub fn new(alloc: Global, algebra: &'a DataSpec) -> Result<Engine<'a>, Memory>
        requires executable { IsExecutable (theory_of algebra.now) }
        ensures engine { IfOk result IsEngine }
        ensures algebra { IfOk result (λ e. e.algebra.now ≡ algebra.now) }
    {
        let forms = Forms::new(alloc, algebra)?;
        let bound = Vec::from_elem(alloc, 0u32, forms.room)?;
        Ok(Engine {
            algebra,
            forms,
            bound,
            store: Store::new(alloc),
        })
    }

    /// The value of a ground term, with at most `budget` uses of equations, where what is remembered counts in full. `Spent` means that it
    /// takes more of them, and `TooLarge` that its evaluation meets a value of more than 65,536 symbols; where both hold, either may be
    /// answered. At most 65,536 calls and 2^20 terms are remembered; once there are as many, no more are, and the next call begins with
    /// none. It recurs as deep as the term and the equations nest, and not as deep as values or evaluations are.
    pub fn value(&mut self, alloc: Global, term: &Term, budget: u64) -> Result<Value, Eval>
        requires engine { IsEngine self.old }
        requires fits { FitsGround (theory_of self.old.algebra.now) (term_of term.now) }
        ensures engine { IsEngine self.new }
        ensures algebra { self.new.algebra.now ≡ self.old.algebra.now }
        ensures value { IfOk result (SpellsValue (theory_of self.old.algebra.now) (term_of term.now) budget) }
        ensures spent { IfErr result (λ e. e ≡ Eval.Spent → IsBeyond (theory_of self.old.algebra.now) (term_of term.now) budget) }
        ensures too_large { IfErr result (λ e.
            e ≡ Eval.TooLarge → MeetsTooLarge (theory_of self.old.algebra.now) (term_of term.now)) }
        ensures complete { IsWithin (theory_of self.old.algebra.now) (term_of term.now) budget → IfErr result (λ e. e ≡ Eval.Memory) }
    {
        let before = mem::replace(&mut self.store, Store::new(alloc));
        let mut store = next_store(alloc, before);
        let value = evaluate(
            alloc,
            self.algebra,
            &self.forms,
            &mut store,
            &mut self.bound,
            term,
            budget,
        )?;
        self.store = store;
        Ok(value)
    }

    /// Whether two ground terms are equal: whether they have one value, each with at most `budget` uses of equations. The left one is
    /// evaluated first, and the first that has no value is answered, with its cause.
    #[tactic(auto, using(rewriter::proofs::Sides::within_of))]
    pub fn compare(
        &mut self,
        alloc: Global,
        left: &Term,
        right: &Term,
        budget: u64,
    ) -> Result<bool, SideFault>
        requires engine { IsEngine self.old }
        requires left { FitsGround (theory_of self.old.algebra.now) (term_of left.now) }
        requires right { FitsGround (theory_of self.old.algebra.now) (term_of right.now) }
        ensures engine { IsEngine self.new }
        ensures algebra { self.new.algebra.now ≡ self.old.algebra.now }
        ensures decides { IfOk result (λ same.
            IsTrue same ↔ Equal (theory_of self.old.algebra.now) (term_of left.now) (term_of right.now)) }
        ensures within { OnOk result (AreWithin (theory_of self.old.algebra.now) (term_of left.now) (term_of right.now) budget) }
        ensures spent { IfErr result (λ e. e.cause ≡ Eval.Spent →
            IsBeyond (theory_of self.old.algebra.now) (at_side e.side (term_of left.now) (term_of right.now)) budget) }
        ensures too_large { IfErr result (λ e. e.cause ≡ Eval.TooLarge →
            MeetsTooLarge (theory_of self.old.algebra.now) (at_side e.side (term_of left.now) (term_of right.now))) }
        ensures left_first { IfErr result (λ e.
            e.side ≡ Side.Right → IsWithin (theory_of self.old.algebra.now) (term_of left.now) budget) }
        ensures complete { IsWithin (theory_of self.old.algebra.now) (term_of left.now) budget →
            IsWithin (theory_of self.old.algebra.now) (term_of right.now) budget →
            IfErr result (λ e. e.cause ≡ Eval.Memory) }
    {
        match self.value(alloc, left, budget) {
            Err(cause) => Err(SideFault {
                side: Side::Left,
                cause,
            }),
            Ok(left_value) => match self.value(alloc, right, budget) {
                Err(cause) => Err(SideFault {
                    side: Side::Right,
                    cause,
                }),
                Ok(right_value) => Ok(left_value.same(&right_value)),
            },
        }
    }

    /// The same, with the cause alone, which is one of either term.
    #[tactic(auto, using(rewriter::proofs::Sides::either))]
    pub fn judge(
        &mut self,
        alloc: Global,
        left: &Term,
        right: &Term,
        budget: u64,
    ) -> Result<bool, Eval>
        requires engine { IsEngine self.old }
        requires left { FitsGround (theory_of self.old.algebra.now) (term_of left.now) }
        requires right { FitsGround (theory_of self.old.algebra.now) (term_of right.now) }
        ensures engine { IsEngine self.new }
        ensures algebra { self.new.algebra.now ≡ self.old.algebra.now }
        ensures decides { IfOk result (λ same.
            IsTrue same ↔ Equal (theory_of self.old.algebra.now) (term_of left.now) (term_of right.now)) }
        ensures within { OnOk result (AreWithin (theory_of self.old.algebra.now) (term_of left.now) (term_of right.now) budget) }
        ensures spent { IfErr result (λ e.
            e ≡ Eval.Spent →
            IsBeyond (theory_of self.old.algebra.now) (term_of left.now) budget ⊎
            IsBeyond (theory_of self.old.algebra.now) (term_of right.now) budget) }
        ensures too_large { IfErr result (λ e.
            e ≡ Eval.TooLarge →
            MeetsTooLarge (theory_of self.old.algebra.now) (term_of left.now) ⊎
            MeetsTooLarge (theory_of self.old.algebra.now) (term_of right.now)) }
        ensures complete { IsWithin (theory_of self.old.algebra.now) (term_of left.now) budget →
            IsWithin (theory_of self.old.algebra.now) (term_of right.now) budget →
            IfErr result (λ e. e ≡ Eval.Memory) }
    {
        match self.compare(alloc, left, right, budget) {
            Ok(same) => Ok(same),
            Err(SideFault { side: _, cause }) => Err(cause),
        }
    }
}
