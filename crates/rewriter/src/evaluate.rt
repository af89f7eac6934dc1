// The value of a term, and whether two terms have one value.

ghost use Rattle.std.specs.Prelude.{◌≡◌, ◌⊎◌, ◌↔◌, IfOk, IfErr, OnOk, IsTrue};
ghost use Rattle.spec_core.specs.Budgets.{IsBeyond};
ghost use Rattle.spec_core.specs.Equality.{Equal};
ghost use Rattle.spec_core.specs.Executable.{IsExecutable};
ghost use Rattle.spec_core.specs.Sorts.{FitsGround};
ghost use Rattle.spec_core.specs.Terms.{term_of};
ghost use Rattle.spec_core.specs.Theories.{theory_of};
ghost use Rattle.rewriter.specs.Answers.{SpellsValue, MeetsTooLarge, IsWithin, AreWithin, at_side};

use crate::equations::most_variables;
use crate::fault::{Eval, Side, SideFault};
use crate::heads::FirstEquations;
use crate::run::run;
use crate::step::{Todo, push_instance};
use crate::values::Values;
use spec_core::equation::DataSpec;
use spec_core::term::Term;
use spec_core::value::Value;
use std::alloc::Global;
use value_nodes::node::Nodes;
use value_nodes::spelling::spell;

/// The value of a ground term, with at most `budget` uses of equations. `Spent` means that it takes more of them, and `TooLarge` that
/// its evaluation meets a value of more than 65,536 symbols; where both hold, the one that comes first is answered. It recurs as deep
/// as the term and the equations nest, and not as deep as values or evaluations are.
pub fn value(alloc: Global, algebra: &DataSpec, term: &Term, budget: u64) -> Result<Value, Eval>
    requires executable { IsExecutable (theory_of algebra.now) }
    requires fits { FitsGround (theory_of algebra.now) (term_of term.now) }
    ensures value { IfOk result (SpellsValue (theory_of algebra.now) (term_of term.now) budget) }
    ensures spent { IfErr result (λ e. e ≡ Eval.Spent → IsBeyond (theory_of algebra.now) (term_of term.now) budget) }
    ensures too_large { IfErr result (λ e. e ≡ Eval.TooLarge → MeetsTooLarge (theory_of algebra.now) (term_of term.now)) }
    ensures complete { IsWithin (theory_of algebra.now) (term_of term.now) budget → IfErr result (λ e. e ≡ Eval.Memory) }
{
    evaluate(alloc, algebra, term, budget)
}

/// Whether two ground terms are equal: whether they have one value, each with at most `budget` uses of equations. The left one is evaluated
/// first, and the first that has no value is answered, with its cause.
#[tactic(auto, using(crate::proofs::Sides::within_of))]
pub fn compare(
    alloc: Global,
    algebra: &DataSpec,
    left: &Term,
    right: &Term,
    budget: u64,
) -> Result<bool, SideFault>
    requires executable { IsExecutable (theory_of algebra.now) }
    requires left { FitsGround (theory_of algebra.now) (term_of left.now) }
    requires right { FitsGround (theory_of algebra.now) (term_of right.now) }
    ensures decides { IfOk result (λ same. IsTrue same ↔ Equal (theory_of algebra.now) (term_of left.now) (term_of right.now)) }
    ensures within { OnOk result (AreWithin (theory_of algebra.now) (term_of left.now) (term_of right.now) budget) }
    ensures spent { IfErr result (λ e. e.cause ≡ Eval.Spent →
        IsBeyond (theory_of algebra.now) (at_side e.side (term_of left.now) (term_of right.now)) budget) }
    ensures too_large { IfErr result (λ e. e.cause ≡ Eval.TooLarge →
        MeetsTooLarge (theory_of algebra.now) (at_side e.side (term_of left.now) (term_of right.now))) }
    ensures left_first { IfErr result (λ e. e.side ≡ Side.Right → IsWithin (theory_of algebra.now) (term_of left.now) budget) }
    ensures complete { IsWithin (theory_of algebra.now) (term_of left.now) budget →
        IsWithin (theory_of algebra.now) (term_of right.now) budget →
        IfErr result (λ e. e.cause ≡ Eval.Memory) }
{
    match value(alloc, algebra, left, budget) {
        Err(cause) => Err(SideFault {
            side: Side::Left,
            cause,
        }),
        Ok(left_value) => match value(alloc, algebra, right, budget) {
            Err(cause) => Err(SideFault {
                side: Side::Right,
                cause,
            }),
            Ok(right_value) => Ok(left_value.same(&right_value)),
        },
    }
}

/// The same, with the cause alone, which is one of either term.
#[tactic(auto, using(crate::proofs::Sides::either))]
pub fn judge(
    alloc: Global,
    algebra: &DataSpec,
    left: &Term,
    right: &Term,
    budget: u64,
) -> Result<bool, Eval>
    requires executable { IsExecutable (theory_of algebra.now) }
    requires left { FitsGround (theory_of algebra.now) (term_of left.now) }
    requires right { FitsGround (theory_of algebra.now) (term_of right.now) }
    ensures decides { IfOk result (λ same. IsTrue same ↔ Equal (theory_of algebra.now) (term_of left.now) (term_of right.now)) }
    ensures within { OnOk result (AreWithin (theory_of algebra.now) (term_of left.now) (term_of right.now) budget) }
    ensures spent { IfErr result (λ e.
        e ≡ Eval.Spent →
        IsBeyond (theory_of algebra.now) (term_of left.now) budget ⊎ IsBeyond (theory_of algebra.now) (term_of right.now) budget) }
    ensures too_large { IfErr result (λ e.
        e ≡ Eval.TooLarge →
        MeetsTooLarge (theory_of algebra.now) (term_of left.now) ⊎ MeetsTooLarge (theory_of algebra.now) (term_of right.now)) }
    ensures complete { IsWithin (theory_of algebra.now) (term_of left.now) budget →
        IsWithin (theory_of algebra.now) (term_of right.now) budget →
        IfErr result (λ e. e ≡ Eval.Memory) }
{
    match compare(alloc, algebra, left, right, budget) {
        Ok(same) => Ok(same),
        Err(SideFault { side: _, cause }) => Err(cause),
    }
}

// Begins with the steps of the term, runs them to their end, and spells what they come to.
fn evaluate(alloc: Global, algebra: &DataSpec, term: &Term, budget: u64) -> Result<Value, Eval>
    requires executable { IsExecutable (theory_of algebra.now) }
    requires fits { FitsGround (theory_of algebra.now) (term_of term.now) }
    ensures value { IfOk result (SpellsValue (theory_of algebra.now) (term_of term.now) budget) }
    ensures spent { IfErr result (λ e. e ≡ Eval.Spent → IsBeyond (theory_of algebra.now) (term_of term.now) budget) }
    ensures too_large { IfErr result (λ e. e ≡ Eval.TooLarge → MeetsTooLarge (theory_of algebra.now) (term_of term.now)) }
{
    let heads = FirstEquations::new(alloc, algebra)?;
    let mut bound = Vec::from_elem(alloc, 0u32, most_variables(algebra))?;
    let mut nodes = Nodes::new(alloc);
    let mut todo = Todo::new(alloc);
    let mut values = Values::new(alloc);
    push_instance(&mut todo, &bound, term)?;
    let node = run(
        alloc,
        algebra,
        &heads,
        &mut nodes,
        &mut todo,
        &mut values,
        &mut bound,
        term,
        budget,
    )?;
    let value = spell(alloc, &nodes, node)?;
    Ok(value)
}
