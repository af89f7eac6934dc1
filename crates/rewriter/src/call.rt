// Calls of operations: their equations in order, the equations' premises, and their uses.

ghost use Rattle.std.specs.Prelude.{ℕ, ◌≡◌, ◌<◌, ◌≤◌, ◌∷◌, List, IfOk, IfErr, OnOk, IsTrue, IsFalse, length, map, drop};
ghost use Rattle.spec_core.specs.Executable.{IsExecutable};
ghost use Rattle.spec_core.specs.Lists.{Each};
ghost use Rattle.spec_core.specs.Terms.{TermTree, instance, apply};
ghost use Rattle.spec_core.specs.Theories.{Heads, theory_of};
ghost use Rattle.value_nodes.specs.declared.node.Node.{Node};
ghost use Rattle.value_nodes.specs.Nodes.{tree_at, IsNode, IsLonger, AreSmall};
ghost use Rattle.value_nodes.specs.Own.{AreOwnValues, StaysOver, StaysShort};
ghost use Rattle.value_nodes.specs.Sizes.{IsTooLarge};
ghost use Rattle.rewriter.specs.Calls.{arguments_of, Pending, Wanting, HasRoom, AreNodes, ArePlanned, Decided, Choosing};
ghost use Rattle.rewriter.specs.Calls.{IsCallOf, Left, Asked, Judged, IsCalling};
ghost use Rattle.rewriter.specs.declared.step.Step.TheVariants.{Call, Decide};
ghost use Rattle.rewriter.specs.Index.{IsIndex};
ghost use Rattle.rewriter.specs.Machine.{Keeps, Exceeds};
ghost use Rattle.rewriter.specs.Runs.{Coming, IsReady, MeetsLarge};
ghost use Rattle.rewriter.specs.Steps.{equation_at, IsStep, IsMatch};

use crate::equations::{head_of, numbered, numbered_premise};
use crate::fault::Eval;
use crate::heads::FirstEquations;
use crate::matching::match_all;
use crate::step::{Step, Todo, push_instance};
use crate::values::Values;
use spec_core::equation::DataSpec;
use spec_core::items::Op;
use spec_core::term::Term;
use std::alloc::{AllocError, Global};
use value_nodes::equality::same_value;
use value_nodes::node::Nodes;

/// Whether an equation's left side matches an operation over so many values from the top; the nodes for which its variables stand are put
/// into `bound`. It recurs as deep as the left side nests, and takes no memory.
pub fn fits(
    algebra: &DataSpec,
    nodes: &Nodes,
    values: &Values,
    bound: &mut [u32],
    place: usize,
    op: Op,
    count: usize,
) -> bool
    requires executable { IsExecutable (theory_of algebra.now) }
    requires there { place < length (theory_of algebra.now).equations }
    requires room { HasRoom (theory_of algebra.now) (length bound.old) }
    requires values { Each (IsNode nodes.now) values.now }
    ensures room { length bound.new ≡ length bound.old }
    ensures yes { IsTrue result →
        IsMatch nodes.now bound.new (equation_at (theory_of algebra.now) place).left
        (apply op.0 (arguments_of nodes.now count values.now)) }
    ensures no { IsFalse result →
        (s : ℕ → TermTree) →
        instance s (equation_at (theory_of algebra.now) place).left ≡ apply op.0 (arguments_of nodes.now count values.now) → ⊥ }
{
    match &numbered(algebra, place).left {
        Term::Var(_) => false,
        Term::App(head, patterns) => {
            head.0 == op.0 && match_all(nodes, patterns, values.top(count), bound)
        }
    }
}

// The first equation from this one on that matches, or the number of equations.
fn find(
    algebra: &DataSpec,
    heads: &FirstEquations,
    nodes: &Nodes,
    values: &Values,
    bound: &mut [u32],
    op: Op,
    count: usize,
    from: usize,
) -> usize
    requires executable { IsExecutable (theory_of algebra.now) }
    requires indexed { IsIndex (theory_of algebra.now) heads.now }
    requires room { HasRoom (theory_of algebra.now) (length bound.old) }
    requires values { Each (IsNode nodes.now) values.now }
    requires headed { from < length (theory_of algebra.now).equations → Heads op.0 (equation_at (theory_of algebra.now) from) }
    ensures room { length bound.new ≡ length bound.old }
    ensures onward { from ≤ result }
    ensures skipped { (j : ℕ) →
        from ≤ j → j < result → j < length (theory_of algebra.now).equations → (s : ℕ → TermTree) →
        instance s (equation_at (theory_of algebra.now) j).left ≡ apply op.0 (arguments_of nodes.now count values.now) → ⊥ }
    ensures found { result < length (theory_of algebra.now).equations →
        IsMatch nodes.now bound.new (equation_at (theory_of algebra.now) result).left
        (apply op.0 (arguments_of nodes.now count values.now)) }
{
    let mut place = from;
    while place < algebra.equations.len() {
        if fits(algebra, nodes, values, bound, place, op, count) {
            return place;
        }
        place = heads.after(algebra, place);
    }
    place
}

// The steps that ask a premise of an equation.
fn push_premise(
    algebra: &DataSpec,
    todo: &mut Todo,
    bound: &[u32],
    place: usize,
    next: usize,
    start: u64,
) -> Result<(), AllocError>
    requires executable { IsExecutable (theory_of algebra.now) }
    requires there { place < length (theory_of algebra.now).equations }
    requires premise { next < length (equation_at (theory_of algebra.now) place).premises }
    requires room { HasRoom (theory_of algebra.now) (length bound.now) }
    ensures planned { OnOk result ((rows : List Node) → ArePlanned (theory_of algebra.now) rows bound.now place next start todo.old todo.new) }
    ensures steps { OnOk result
        ((rows : List Node) → AreNodes (theory_of algebra.now) rows bound.now place →
        Each (IsStep (theory_of algebra.now) rows) todo.old → Each (IsStep (theory_of algebra.now) rows) todo.new) }
{
    let sides = numbered_premise(algebra, place, next);
    todo.push(Step::Decide(place as u32, next + 1, start))?;
    push_instance(todo, bound, &sides.1)?;
    push_instance(todo, bound, &sides.0)
}

// Asks the premises of an equation that matches, from this one on, or uses it.
fn ask(
    algebra: &DataSpec,
    nodes: &Nodes,
    todo: &mut Todo,
    values: &mut Values,
    bound: &[u32],
    place: usize,
    next: usize,
    op: Op,
    count: usize,
    start: u64,
    uses: u64,
    budget: u64,
) -> Result<u64, Eval>
    requires executable { IsExecutable (theory_of algebra.now) }
    requires within { uses ≤ budget }
    requires there { place < length (theory_of algebra.now).equations }
    requires room { HasRoom (theory_of algebra.now) (length bound.now) }
    requires calling { IsCalling (theory_of algebra.now) nodes.now op.0 count start
        (Asked (theory_of algebra.now) nodes.now bound.now place next op.0 count values.old) todo.old values.old uses }
    requires fit { IsMatch nodes.now bound.now (equation_at (theory_of algebra.now) place).left
        (apply op.0 (arguments_of nodes.now count values.old)) }
    ensures ready { IfOk result (λ u. IsReady (theory_of algebra.now) nodes.now todo.new values.new u) }
    ensures within { IfOk result (λ u. u ≤ budget) }
    ensures kept { IfOk result (λ u.
        Keeps (Wanting (theory_of algebra.now) nodes.now bound.now place next op.0 count todo.old values.old) uses
        (Coming (theory_of algebra.now) nodes.now todo.new values.new) u) }
    ensures spent { IfErr result (λ e.
        e ≡ Eval.Spent →
        Exceeds (Wanting (theory_of algebra.now) nodes.now bound.now place next op.0 count todo.old values.old) uses budget) }
    ensures small { IfErr result (λ e. e ≡ Eval.TooLarge → ⊥) }
{
    let equation = numbered(algebra, place);
    if next < equation.premises.len() {
        push_premise(algebra, todo, bound, place, next, start)?;
        return Ok(uses);
    }
    if uses >= budget {
        return Err(Eval::Spent);
    }
    values.forget(count);
    push_instance(todo, bound, &equation.right)?;
    Ok(uses + 1)
}

// Makes the value of a call that stays, which costs so many uses of its own.
fn build(
    algebra: &DataSpec,
    nodes: &mut Nodes,
    values: &mut Values,
    op: Op,
    count: usize,
    own: u64,
) -> Result<(), Eval>
    requires executable { IsExecutable (theory_of algebra.now) }
    requires values { Each (IsNode nodes.old) values.old }
    requires own { AreOwnValues (theory_of algebra.now) nodes.old }
    requires stays { StaysOver (theory_of algebra.now) op.0 (arguments_of nodes.old count values.old) own }
    requires short { StaysShort (theory_of algebra.now) op.0 count }
    ensures longer { IfOk result (λ u. IsLonger nodes.old nodes.new) }
    ensures values { IfOk result (λ u. Each (IsNode nodes.new) values.new) }
    ensures own { IfOk result (λ u. AreOwnValues (theory_of algebra.now) nodes.new) }
    ensures all_small { OnOk result (AreSmall nodes.new) }
    ensures built { IfOk result (λ u.
        map (tree_at nodes.new) values.new ≡
        apply op.0 (arguments_of nodes.old count values.old) ∷ drop count (map (tree_at nodes.old) values.old)) }
    ensures small { OnOk result (IsTooLarge (apply op.0 (arguments_of nodes.old count values.old)) → ⊥) }
    ensures large { IfErr result (λ e. e ≡ Eval.TooLarge → IsTooLarge (apply op.0 (arguments_of nodes.old count values.old))) }
    ensures unspent { IfErr result (λ e. e ≡ Eval.Spent → ⊥) }
{
    let node = nodes.make(op, values.top(count), own)?;
    values.forget(count);
    values.push(node)?;
    Ok(())
}

// Takes up the equations from this one on, in a call that began after so many uses; where none applies, the call stays.
fn try_from(
    algebra: &DataSpec,
    heads: &FirstEquations,
    nodes: &mut Nodes,
    todo: &mut Todo,
    values: &mut Values,
    bound: &mut [u32],
    op: Op,
    count: usize,
    from: usize,
    start: u64,
    uses: u64,
    budget: u64,
) -> Result<u64, Eval>
    requires executable { IsExecutable (theory_of algebra.now) }
    requires indexed { IsIndex (theory_of algebra.now) heads.now }
    requires within { uses ≤ budget }
    requires room { HasRoom (theory_of algebra.now) (length bound.old) }
    requires calling { IsCalling (theory_of algebra.now) nodes.old op.0 count start
        (Left (theory_of algebra.now) nodes.old from op.0 count values.old) todo.old values.old uses }
    requires headed { from < length (theory_of algebra.now).equations → Heads op.0 (equation_at (theory_of algebra.now) from) }
    ensures room { length bound.new ≡ length bound.old }
    ensures longer { IfOk result (λ u. IsLonger nodes.old nodes.new) }
    ensures ready { IfOk result (λ u. IsReady (theory_of algebra.now) nodes.new todo.new values.new u) }
    ensures within { IfOk result (λ u. u ≤ budget) }
    ensures kept { IfOk result (λ u.
        Keeps (Pending (theory_of algebra.now) nodes.old from op.0 count todo.old values.old) uses
        (Coming (theory_of algebra.now) nodes.new todo.new values.new) u) }
    ensures spent { IfErr result (λ e.
        e ≡ Eval.Spent → Exceeds (Pending (theory_of algebra.now) nodes.old from op.0 count todo.old values.old) uses budget) }
    ensures large { IfErr result (λ e.
        e ≡ Eval.TooLarge → MeetsLarge (Pending (theory_of algebra.now) nodes.old from op.0 count todo.old values.old)) }
{
    let place = find(algebra, heads, nodes, values, bound, op, count, from);
    if place < algebra.equations.len() {
        ask(
            algebra, nodes, todo, values, bound, place, 0, op, count, start, uses, budget,
        )
    } else {
        build(
            algebra,
            nodes,
            values,
            op,
            count,
            uses.saturating_sub(start),
        )?;
        Ok(uses)
    }
}

/// Performs a call.
pub fn call(
    algebra: &DataSpec,
    heads: &FirstEquations,
    nodes: &mut Nodes,
    todo: &mut Todo,
    values: &mut Values,
    bound: &mut [u32],
    op: Op,
    count: usize,
    uses: u64,
    budget: u64,
) -> Result<u64, Eval>
    requires executable { IsExecutable (theory_of algebra.now) }
    requires indexed { IsIndex (theory_of algebra.now) heads.now }
    requires within { uses ≤ budget }
    requires room { HasRoom (theory_of algebra.now) (length bound.old) }
    requires ready { IsReady (theory_of algebra.now) nodes.old (Call op count ∷ todo.old) values.old uses }
    ensures room { length bound.new ≡ length bound.old }
    ensures longer { IfOk result (λ u. IsLonger nodes.old nodes.new) }
    ensures ready { IfOk result (λ u. IsReady (theory_of algebra.now) nodes.new todo.new values.new u) }
    ensures within { IfOk result (λ u. u ≤ budget) }
    ensures kept { IfOk result (λ u.
        Keeps (Pending (theory_of algebra.now) nodes.old 0 op.0 count todo.old values.old) uses
        (Coming (theory_of algebra.now) nodes.new todo.new values.new) u) }
    ensures spent { IfErr result (λ e.
        e ≡ Eval.Spent → Exceeds (Pending (theory_of algebra.now) nodes.old 0 op.0 count todo.old values.old) uses budget) }
    ensures large { IfErr result (λ e.
        e ≡ Eval.TooLarge → MeetsLarge (Pending (theory_of algebra.now) nodes.old 0 op.0 count todo.old values.old)) }
{
    let place = heads.first(algebra, op);
    try_from(
        algebra, heads, nodes, todo, values, bound, op, count, place, uses, uses, budget,
    )
}

// Goes on after a premise whose sides have one value.
fn hold(
    algebra: &DataSpec,
    nodes: &Nodes,
    todo: &mut Todo,
    values: &mut Values,
    bound: &mut [u32],
    place: usize,
    next: usize,
    start: u64,
    uses: u64,
    budget: u64,
) -> Result<u64, Eval>
    requires executable { IsExecutable (theory_of algebra.now) }
    requires within { uses ≤ budget }
    requires there { place < length (theory_of algebra.now).equations }
    requires room { HasRoom (theory_of algebra.now) (length bound.old) }
    requires values { Each (IsNode nodes.now) values.old }
    requires calling { (f k : ℕ) →
        IsCallOf (theory_of algebra.now) place f k →
        (a : TermTree) ×
        IsCalling (theory_of algebra.now) nodes.now f k start
        (Judged (theory_of algebra.now) nodes.now place next f k a a values.old) todo.old values.old uses }
    ensures room { length bound.new ≡ length bound.old }
    ensures ready { IfOk result (λ u. IsReady (theory_of algebra.now) nodes.now todo.new values.new u) }
    ensures within { IfOk result (λ u. u ≤ budget) }
    ensures kept { IfOk result (λ u.
        (a : TermTree) → Keeps (Decided (theory_of algebra.now) nodes.now place next start a a todo.old values.old) uses
        (Coming (theory_of algebra.now) nodes.now todo.new values.new) u) }
    ensures spent { IfErr result (λ e.
        e ≡ Eval.Spent → (a : TermTree) →
        Exceeds (Decided (theory_of algebra.now) nodes.now place next start a a todo.old values.old) uses budget) }
    ensures small { IfErr result (λ e. e ≡ Eval.TooLarge → ⊥) }
{
    let (op, count) = head_of(algebra, place);
    if fits(algebra, nodes, values, bound, place, op, count) {
        ask(
            algebra, nodes, todo, values, bound, place, next, op, count, start, uses, budget,
        )
    } else {
        Err(Eval::Spent)
    }
}

// Goes on after a premise whose sides have two values.
fn fail(
    algebra: &DataSpec,
    heads: &FirstEquations,
    nodes: &mut Nodes,
    todo: &mut Todo,
    values: &mut Values,
    bound: &mut [u32],
    place: usize,
    start: u64,
    uses: u64,
    budget: u64,
) -> Result<u64, Eval>
    requires executable { IsExecutable (theory_of algebra.now) }
    requires indexed { IsIndex (theory_of algebra.now) heads.now }
    requires within { uses ≤ budget }
    requires there { place < length (theory_of algebra.now).equations }
    requires room { HasRoom (theory_of algebra.now) (length bound.old) }
    requires calling { (f k : ℕ) →
        IsCallOf (theory_of algebra.now) place f k →
        (next : ℕ) × (a b : TermTree) × (a ≡ b → ⊥) ×
        IsCalling (theory_of algebra.now) nodes.old f k start
        (Judged (theory_of algebra.now) nodes.old place next f k a b values.old) todo.old values.old uses }
    ensures room { length bound.new ≡ length bound.old }
    ensures longer { IfOk result (λ u. IsLonger nodes.old nodes.new) }
    ensures ready { IfOk result (λ u. IsReady (theory_of algebra.now) nodes.new todo.new values.new u) }
    ensures within { IfOk result (λ u. u ≤ budget) }
    ensures kept { IfOk result (λ u.
        (next : ℕ) (a b : TermTree) → (a ≡ b → ⊥) →
        Keeps (Decided (theory_of algebra.now) nodes.old place next start a b todo.old values.old) uses
        (Coming (theory_of algebra.now) nodes.new todo.new values.new) u) }
    ensures spent { IfErr result (λ e.
        e ≡ Eval.Spent → (next : ℕ) (a b : TermTree) → (a ≡ b → ⊥) →
        Exceeds (Decided (theory_of algebra.now) nodes.old place next start a b todo.old values.old) uses budget) }
    ensures large { IfErr result (λ e.
        e ≡ Eval.TooLarge → (next : ℕ) (a b : TermTree) → (a ≡ b → ⊥) →
        MeetsLarge (Decided (theory_of algebra.now) nodes.old place next start a b todo.old values.old)) }
{
    let (op, count) = head_of(algebra, place);
    let from = heads.after(algebra, place);
    try_from(
        algebra, heads, nodes, todo, values, bound, op, count, from, start, uses, budget,
    )
}

/// Decides a premise by the values of its sides.
pub fn decide(
    alloc: Global,
    algebra: &DataSpec,
    heads: &FirstEquations,
    nodes: &mut Nodes,
    todo: &mut Todo,
    values: &mut Values,
    bound: &mut [u32],
    place: usize,
    next: usize,
    start: u64,
    uses: u64,
    budget: u64,
) -> Result<u64, Eval>
    requires executable { IsExecutable (theory_of algebra.now) }
    requires indexed { IsIndex (theory_of algebra.now) heads.now }
    requires within { uses ≤ budget }
    requires there { place < length (theory_of algebra.now).equations }
    requires room { HasRoom (theory_of algebra.now) (length bound.old) }
    requires ready { IsReady (theory_of algebra.now) nodes.old (Decide place next start ∷ todo.old) values.old uses }
    ensures room { length bound.new ≡ length bound.old }
    ensures longer { IfOk result (λ u. IsLonger nodes.old nodes.new) }
    ensures ready { IfOk result (λ u. IsReady (theory_of algebra.now) nodes.new todo.new values.new u) }
    ensures within { IfOk result (λ u. u ≤ budget) }
    ensures kept { IfOk result (λ u.
        Keeps (Choosing (theory_of algebra.now) nodes.old place next start todo.old values.old) uses
        (Coming (theory_of algebra.now) nodes.new todo.new values.new) u) }
    ensures spent { IfErr result (λ e.
        e ≡ Eval.Spent → Exceeds (Choosing (theory_of algebra.now) nodes.old place next start todo.old values.old) uses budget) }
    ensures large { IfErr result (λ e.
        e ≡ Eval.TooLarge → MeetsLarge (Choosing (theory_of algebra.now) nodes.old place next start todo.old values.old)) }
{
    match values.pop() {
        None => Err(Eval::Spent),
        Some(right) => match values.pop() {
            None => Err(Eval::Spent),
            Some(left) => {
                if same_value(alloc, nodes, left, right)? {
                    hold(
                        algebra, nodes, todo, values, bound, place, next, start, uses, budget,
                    )
                } else {
                    fail(
                        algebra, heads, nodes, todo, values, bound, place, start, uses, budget,
                    )
                }
            }
        },
    }
}
