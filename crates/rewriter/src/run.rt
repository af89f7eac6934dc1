// The main loop.

ghost use Rattle.std.specs.Prelude.{ℕ, ◌≡◌, ◌<◌, ◌≤◌, ◌+◌, ◌∷◌, [], IfOk, IfErr, OnOk, length};
ghost use Rattle.spec_core.specs.Budgets.{IsBeyond};
ghost use Rattle.spec_core.specs.Evaluation.{Evaluates};
ghost use Rattle.spec_core.specs.Executable.{IsExecutable};
ghost use Rattle.spec_core.specs.Terms.{term_of};
ghost use Rattle.spec_core.specs.Theories.{theory_of};
ghost use Rattle.value_nodes.specs.Nodes.{tree_at, cost_at, IsNode, IsLonger};
ghost use Rattle.rewriter.specs.Answers.{MeetsTooLarge};
ghost use Rattle.rewriter.specs.Calls.{HasRoom};
ghost use Rattle.rewriter.specs.Index.{IsIndex};
ghost use Rattle.rewriter.specs.Machine.{Evaluating, Keeps, Exceeds};
ghost use Rattle.rewriter.specs.Runs.{Coming, IsReady, MeetsLarge};

use crate::call::{call, decide};
use crate::compaction::{FEWEST, tidy};
use crate::fault::Eval;
use crate::heads::FirstEquations;
use crate::step::{Step, Todo};
use crate::values::Values;
use spec_core::equation::DataSpec;
use spec_core::term::Term;
use std::alloc::Global;
use value_nodes::node::Nodes;

/// Performs one step, and gives the number of uses after it. It recurs as deep as the equations nest.
pub fn perform(
    alloc: Global,
    algebra: &DataSpec,
    heads: &FirstEquations,
    nodes: &mut Nodes,
    todo: &mut Todo,
    values: &mut Values,
    bound: &mut [u32],
    step: Step,
    uses: u64,
    budget: u64,
) -> Result<u64, Eval>
    requires executable { IsExecutable (theory_of algebra.now) }
    requires indexed { IsIndex (theory_of algebra.now) heads.now }
    requires within { uses ≤ budget }
    requires room { HasRoom (theory_of algebra.now) (length bound.old) }
    requires ready { IsReady (theory_of algebra.now) nodes.old (step ∷ todo.old) values.old uses }
    ensures room { length bound.new ≡ length bound.old }
    ensures longer { IfOk result (λ u. IsLonger nodes.old nodes.new) }
    ensures ready { IfOk result (λ u. IsReady (theory_of algebra.now) nodes.new todo.new values.new u) }
    ensures within { IfOk result (λ u. u ≤ budget) }
    ensures kept { IfOk result (λ u.
        Keeps (Coming (theory_of algebra.now) nodes.old (step ∷ todo.old) values.old) uses
        (Coming (theory_of algebra.now) nodes.new todo.new values.new) u) }
    ensures spent { IfErr result (λ e.
        e ≡ Eval.Spent → Exceeds (Coming (theory_of algebra.now) nodes.old (step ∷ todo.old) values.old) uses budget) }
    ensures large { IfErr result (λ e.
        e ≡ Eval.TooLarge → MeetsLarge (Coming (theory_of algebra.now) nodes.old (step ∷ todo.old) values.old)) }
{
    match step {
        Step::Put(node) => put(nodes, values, node, uses, budget),
        Step::Call(op, count) => call(
            algebra, heads, nodes, todo, values, bound, op, count, uses, budget,
        ),
        Step::Decide(place, next, start) => decide(
            alloc,
            algebra,
            heads,
            nodes,
            todo,
            values,
            bound,
            place as usize,
            next,
            start,
            uses,
            budget,
        ),
    }
}

/// Puts a value on those that are there, which takes the uses that it costs to evaluate it again, and gives the number of uses after it.
pub fn put(
    nodes: &Nodes,
    values: &mut Values,
    node: u32,
    uses: u64,
    budget: u64,
) -> Result<u64, Eval>
    requires there { IsNode nodes.now node }
    requires within { uses ≤ budget }
    ensures pushed { IfOk result (λ u. values.new ≡ node ∷ values.old) }
    ensures counted { IfOk result (λ u. u ≡ uses + cost_at nodes.now node) }
    ensures within { IfOk result (λ u. u ≤ budget) }
    ensures spent { IfErr result (λ e. e ≡ Eval.Spent → budget < uses + cost_at nodes.now node) }
    ensures small { IfErr result (λ e. e ≡ Eval.TooLarge → ⊥) }
{
    let cost = nodes.cost(node);
    if cost > budget - uses {
        return Err(Eval::Spent);
    }
    values.push(node)?;
    Ok(uses + cost)
}

/// The one value that is there. `Spent` where there is none, or more than one.
pub fn the_value(values: &mut Values) -> Result<u32, Eval>
    ensures one { IfOk result (λ n. values.old ≡ n ∷ []) }
    ensures spent { IfErr result (λ e. (n : ℕ) → values.old ≡ n ∷ [] → ⊥) }
    ensures fault { IfErr result (λ e. e ≡ Eval.Spent) }
{
    match values.pop() {
        Some(node) => match values.pop() {
            Some(_) => Err(Eval::Spent),
            None => Ok(node),
        },
        None => Err(Eval::Spent),
    }
}

/// Runs the steps to their end: the node of the value of the term for which they stand.
pub fn run(
    alloc: Global,
    algebra: &DataSpec,
    heads: &FirstEquations,
    nodes: &mut Nodes,
    todo: &mut Todo,
    values: &mut Values,
    bound: &mut [u32],
    term: &Term,
    budget: u64,
) -> Result<u32, Eval>
    requires executable { IsExecutable (theory_of algebra.now) }
    requires ready { IsReady (theory_of algebra.now) nodes.old todo.old values.old 0 }
    requires indexed { IsIndex (theory_of algebra.now) heads.now }
    requires room { HasRoom (theory_of algebra.now) (length bound.old) }
    requires begun { Keeps (Evaluating (theory_of algebra.now) (term_of term.now)) 0
        (Coming (theory_of algebra.now) nodes.old todo.old values.old) 0 }
    ensures there { IfOk result (λ n. IsNode nodes.new n) }
    ensures value { IfOk result (λ n.
        (k : ℕ) × Evaluates (theory_of algebra.now) (term_of term.now) (tree_at nodes.new n) k × (k ≤ budget)) }
    ensures small { OnOk result (MeetsTooLarge (theory_of algebra.now) (term_of term.now) → ⊥) }
    ensures spent { IfErr result (λ e. e ≡ Eval.Spent → IsBeyond (theory_of algebra.now) (term_of term.now) budget) }
    ensures large { IfErr result (λ e. e ≡ Eval.TooLarge → MeetsTooLarge (theory_of algebra.now) (term_of term.now)) }
{
    let mut uses: u64 = 0;
    let mut limit = FEWEST;
    for _turn in 0..u64::MAX {
        match todo.pop() {
            Some(step) => {
                uses = perform(
                    alloc, algebra, heads, nodes, todo, values, bound, step, uses, budget,
                )?;
                limit = tidy(alloc, algebra, nodes, todo, values, limit)?;
            }
            None => {
                let node = the_value(values)?;
                return Ok(node);
            }
        }
    }
    Err(Eval::Memory)
}
