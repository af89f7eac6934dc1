// Uses of equations by their right sides in postfix order.

ghost use Rattle.std.specs.Prelude.{ℕ, ◌≡◌, ◌<◌, ◌≤◌, ◌+◌, ◌++◌, List, IfOk, IfErr, OnOk, length, map, drop, reverse};
ghost use Rattle.spec_core.specs.Lists.{Each};
ghost use Rattle.spec_core.specs.Theories.{Theory};
ghost use Rattle.value_nodes.specs.declared.node.Node.{Node};
ghost use Rattle.value_nodes.specs.Nodes.{all_costs, IsNode};
ghost use Rattle.rewriter.specs.Steps.{bound_at, put_by, task_of, IsStep, IsWithinArity};
ghost use Rattle.match_code.specs.Rights.{task_by, OnVariable, OnOperation};

use crate::rights::{Right, Symbol};
use crate::state::Runs;
use rewriter::Eval;
use rewriter::run::put;
use rewriter::step::{Step, Todo};
use rewriter::values::Values;
use std::alloc::AllocError;
use value_nodes::node::Nodes;

// The step of an evaluation that a symbol is, where these nodes stand for the variables.
fn step_of(bound: &[u32], symbol: Symbol) -> Step
    requires room { OnVariable (λ x. x < length bound.now) symbol }
    ensures task { (theory : Theory) (rows : List Node) → task_of theory rows result ≡ task_by (put_by rows bound.now) symbol }
    ensures step { (theory : Theory) (rows : List Node) →
        OnVariable (λ x. IsNode rows (bound_at bound.now x)) symbol → OnOperation (IsWithinArity theory) symbol →
        IsStep theory rows result }
{
    match symbol {
        Symbol::Variable(x) => Step::Put(bound[x as usize]),
        Symbol::Operation(op, count) => Step::Call(op, count),
    }
}

// Puts the steps of symbols, the last one first, before those that are left.
fn push_symbols(todo: &mut Todo, bound: &[u32], symbols: &[Symbol]) -> Result<(), AllocError>
    requires room { Each (OnVariable (λ x. x < length bound.now)) symbols.now }
    ensures planned { OnOk result
        ((theory : Theory) (rows : List Node) →
        map (task_of theory rows) todo.new ≡
        map (task_by (put_by rows bound.now)) (reverse symbols.now) ++ map (task_of theory rows) todo.old) }
    ensures steps { OnOk result
        ((theory : Theory) (rows : List Node) →
        Each (OnVariable (λ x. IsNode rows (bound_at bound.now x))) symbols.now →
        Each (OnOperation (IsWithinArity theory)) symbols.now →
        Each (IsStep theory rows) todo.old →
        Each (IsStep theory rows) todo.new) }
{
    for symbol in symbols {
        todo.push(step_of(bound, *symbol))?;
    }
    Ok(())
}

// Puts what variables stand for on the values that are there, the first one first, which takes the uses that it costs to evaluate each of
// them again, and gives the number of uses after it.
fn put_variables(
    nodes: &Nodes,
    values: &mut Values,
    bound: &[u32],
    first: &[u32],
    uses: u64,
    budget: u64,
) -> Result<u64, Eval>
    requires room { Each (λ x. x < length bound.now) first.now }
    requires there { Each (λ x. IsNode nodes.now (bound_at bound.now x)) first.now }
    requires within { uses ≤ budget }
    ensures put { IfOk result (λ u. values.new ≡ reverse (map (bound_at bound.now) first.now) ++ values.old) }
    ensures counted { IfOk result (λ u. u ≡ uses + all_costs nodes.now (map (bound_at bound.now) first.now)) }
    ensures within { IfOk result (λ u. u ≤ budget) }
    ensures spent { IfErr result (λ e.
        e ≡ Eval.Spent → budget < uses + all_costs nodes.now (map (bound_at bound.now) first.now)) }
    ensures small { IfErr result (λ e. e ≡ Eval.TooLarge → ⊥) }
{
    let mut used = uses;
    for x in first {
        used = put(nodes, values, bound[*x as usize], used, budget)?;
    }
    Ok(used)
}

/// Has the steps of a right side in the place of a call over so many values, by one use of its equation, beside what it costs to evaluate
/// again what its leading variables stand for; `Spent` where too few are left.
pub fn use_right(
    nodes: &Nodes,
    runs: &mut Runs,
    bound: &[u32],
    right: &Right,
    count: usize,
    budget: u64,
) -> Result<(), Eval>
    requires first { Each (λ x. x < length bound.now) right.now.first.items }
    requires there { Each (λ x. IsNode nodes.now (bound_at bound.now x)) right.now.first.items }
    requires rest { Each (OnVariable (λ x. x < length bound.now)) right.now.rest }
    ensures frames { OnOk result (runs.new.frames ≡ runs.old.frames) }
    ensures planned { OnOk result
        ((theory : Theory) (rows : List Node) →
        map (task_of theory rows) runs.new.todo ≡
        map (task_by (put_by rows bound.now)) right.now.rest ++ map (task_of theory rows) runs.old.todo) }
    ensures steps { OnOk result
        ((theory : Theory) (rows : List Node) →
        Each (OnVariable (λ x. IsNode rows (bound_at bound.now x))) right.now.rest →
        Each (OnOperation (IsWithinArity theory)) right.now.rest →
        Each (IsStep theory rows) runs.old.todo →
        Each (IsStep theory rows) runs.new.todo) }
    ensures values { OnOk result
        (runs.new.values ≡ reverse (map (bound_at bound.now) right.now.first.items) ++ drop count runs.old.values) }
    ensures uses { OnOk result
        (runs.new.uses ≡ runs.old.uses + 1 + all_costs nodes.now (map (bound_at bound.now) right.now.first.items)) }
    ensures within { OnOk result (runs.new.uses ≤ budget) }
    ensures spent { IfErr result (λ e.
        e ≡ Eval.Spent →
        budget < runs.old.uses + 1 + all_costs nodes.now (map (bound_at bound.now) right.now.first.items)) }
    ensures small { IfErr result (λ e. e ≡ Eval.TooLarge → ⊥) }
{
    if runs.uses >= budget {
        return Err(Eval::Spent);
    }
    runs.values.forget(count);
    runs.uses = put_variables(
        nodes,
        &mut runs.values,
        bound,
        &right.first,
        runs.uses + 1,
        budget,
    )?;
    push_symbols(&mut runs.todo, bound, right.rest.all())?;
    Ok(())
}
