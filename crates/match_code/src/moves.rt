// The moves of a machine that remembers calls.

ghost use Rattle.std.specs.Prelude.{ℕ, ◌≡◌, ◌≤◌, ◌<◌, ◌+◌, ◌-◌, ◌∷◌, ◌++◌, [], IfErr, OnOk, length, take, drop};
ghost use Rattle.spec_core.specs.Executable.{IsExecutable};
ghost use Rattle.spec_core.specs.Terms.{TermTree, term_of};
ghost use Rattle.spec_core.specs.Theories.{Theory, Heads, theory_of};
ghost use Rattle.rewriter.specs.Calls.{HasRoom};
ghost use Rattle.rewriter.specs.Steps.{equation_at};
ghost use Rattle.rewriter.specs.declared.step.Step.TheVariants.{Call};
ghost use Rattle.match_code.specs.declared.state.Store.{Store};
ghost use Rattle.match_code.specs.Rights.{AreForms};
ghost use Rattle.match_code.specs.States.{Stands, StandsAt, IsCause};

use crate::frames::Frame;
use crate::hints::{Hints, mark_of};
use crate::interned::interned;
use crate::matching::rule_for;
use crate::memo::{Entry, Known, Memo};
use crate::rights::Forms;
use crate::state::{MOST_TERMS, Runs, Store};
use crate::uses::use_right;
use rewriter::Eval;
use rewriter::run::perform;
use rewriter::step::{Step, Todo};
use rewriter::values::Values;
use spec_core::equation::DataSpec;
use spec_core::items::Op;
use spec_core::memory::Memory;
use spec_core::term::Term;
use std::alloc::{AllocError, Global};
use std::mem;

// Performs a step as a machine does that remembers nothing.
fn plainly(
    alloc: Global,
    algebra: &DataSpec,
    forms: &Forms,
    store: &mut Store,
    runs: &mut Runs,
    bound: &mut [u32],
    term: &Term,
    step: Step,
    budget: u64,
) -> Result<(), Eval>
    requires forms { AreForms (theory_of algebra.now) forms.now }
    requires room { HasRoom (theory_of algebra.now) (length bound.old) }
    requires stands { StandsAt (theory_of algebra.now) (term_of term.now) budget store.old runs.old step }
    ensures room { length bound.new ≡ length bound.old }
    ensures stands { OnOk result (Stands (theory_of algebra.now) (term_of term.now) budget store.new runs.new) }
    ensures cause { IfErr result (IsCause (theory_of algebra.now) (term_of term.now) budget) }
{
    runs.uses = perform(
        alloc,
        algebra,
        &forms.heads,
        &mut store.nodes,
        &mut runs.todo,
        &mut runs.values,
        bound,
        step,
        runs.uses,
        budget,
    )?;
    Ok(())
}

// Puts a value in the place of so many values from the top.
fn put_value(values: &mut Values, count: usize, node: u32) -> Result<(), AllocError>
    ensures put { OnOk result (values.new ≡ node ∷ drop count values.old) }
{
    values.forget(count);
    values.push(node)
}

// Uses what a call comes to.
fn use_known(runs: &mut Runs, known: Known, count: usize, budget: u64) -> Result<(), Eval>
    requires within { runs.old.uses ≤ budget }
    ensures frames { OnOk result (runs.new.frames ≡ runs.old.frames) }
    ensures todo { OnOk result (runs.new.todo ≡ runs.old.todo) }
    ensures values { OnOk result (runs.new.values ≡ known.value ∷ drop count runs.old.values) }
    ensures uses { OnOk result (runs.new.uses ≡ runs.old.uses + known.uses) }
    ensures within { OnOk result (runs.old.uses + known.uses ≤ budget) }
    ensures spent { IfErr result (λ e. e ≡ Eval.Spent → budget < runs.old.uses + known.uses) }
    ensures small { IfErr result (λ e. e ≡ Eval.TooLarge → ⊥) }
{
    if known.uses > budget - runs.uses {
        return Err(Eval::Spent);
    }
    put_value(&mut runs.values, count, known.value)?;
    runs.uses = runs.uses + known.uses;
    Ok(())
}

// Lets a call be run by itself.
fn open(alloc: Global, runs: &mut Runs, op: Op, count: usize) -> Result<(), AllocError>
    requires enough { count ≤ length runs.old.values }
    ensures stands { OnOk result
        ((theory : Theory) (t : TermTree) (budget : ℕ) (store : Store) → IsExecutable theory →
        StandsAt theory t budget store runs.old (Call op count) → StandsAt theory t budget store runs.new (Call op count)) }
{
    let args = runs.values.copy_top(alloc, count)?;
    let inner = runs.values.copy_top(alloc, count)?;
    runs.values.forget(count);
    let todo = mem::replace(&mut runs.todo, Todo::new(alloc));
    let values = mem::replace(&mut runs.values, inner);
    runs.frames.push(Frame {
        op,
        args,
        start: runs.uses,
        todo,
        values,
    })?;
    Ok(())
}

// Lets a call be run by itself, where there is room to remember it.
fn begin(
    alloc: Global,
    memo: &mut Memo,
    runs: &mut Runs,
    op: Op,
    count: usize,
) -> Result<(), AllocError>
    ensures entries { OnOk result (memo.new.entries ≡ memo.old.entries) }
    ensures stands { OnOk result
        ((theory : Theory) (t : TermTree) (budget : ℕ) (store : Store) → IsExecutable theory →
        StandsAt theory t budget store runs.old (Call op count) → StandsAt theory t budget store runs.new (Call op count)) }
{
    if count <= runs.values.len() && memo.takes_up(op)? {
        open(alloc, runs, op, count)
    } else {
        Ok(())
    }
}

// Performs a call of an operation that heads equations: by a right side in postfix order where none of them has a premise, and else as a
// machine does that remembers nothing.
fn rewrite(
    alloc: Global,
    algebra: &DataSpec,
    forms: &Forms,
    store: &mut Store,
    runs: &mut Runs,
    bound: &mut [u32],
    term: &Term,
    op: Op,
    count: usize,
    budget: u64,
) -> Result<(), Eval>
    requires forms { AreForms (theory_of algebra.now) forms.now }
    requires room { HasRoom (theory_of algebra.now) (length bound.old) }
    requires stands { StandsAt (theory_of algebra.now) (term_of term.now) budget store.old runs.old (Call op count) }
    ensures room { length bound.new ≡ length bound.old }
    ensures stands { OnOk result (Stands (theory_of algebra.now) (term_of term.now) budget store.new runs.new) }
    ensures cause { IfErr result (IsCause (theory_of algebra.now) (term_of term.now) budget) }
{
    match rule_for(algebra, forms, &store.nodes, &runs.values, bound, op, count) {
        Some(right) => {
            use_right(&store.nodes, runs, bound, right, count, budget)?;
            Ok(())
        }
        None => plainly(
            alloc,
            algebra,
            forms,
            store,
            runs,
            bound,
            term,
            Step::Call(op, count),
            budget,
        ),
    }
}

// Takes up a call of an operation that heads equations: it is remembered, or performed.
fn take_up(
    alloc: Global,
    algebra: &DataSpec,
    forms: &Forms,
    store: &mut Store,
    runs: &mut Runs,
    bound: &mut [u32],
    term: &Term,
    op: Op,
    count: usize,
    budget: u64,
) -> Result<(), Eval>
    requires forms { AreForms (theory_of algebra.now) forms.now }
    requires room { HasRoom (theory_of algebra.now) (length bound.old) }
    requires stands { StandsAt (theory_of algebra.now) (term_of term.now) budget store.old runs.old (Call op count) }
    ensures room { length bound.new ≡ length bound.old }
    ensures stands { OnOk result (Stands (theory_of algebra.now) (term_of term.now) budget store.new runs.new) }
    ensures cause { IfErr result (IsCause (theory_of algebra.now) (term_of term.now) budget) }
{
    match store.memo.find(op, runs.values.top(count)) {
        Some(known) => {
            use_known(runs, known, count, budget)?;
            Ok(())
        }
        None => {
            begin(alloc, &mut store.memo, runs, op, count)?;
            rewrite(
                alloc, algebra, forms, store, runs, bound, term, op, count, budget,
            )
        }
    }
}

// Notes the last value under a mark, while there is room for more terms.
fn note_last(
    alloc: Global,
    hints: &mut Hints,
    count: usize,
    values: &Values,
    mark: u32,
) -> Result<(), Memory> {
    if count > MOST_TERMS {
        return Ok(());
    }
    match values.top(1) {
        [] => Ok(()),
        [node, ..] => hints.note(alloc, mark, *node),
    }
}

// Performs a call of a constructor.
fn build(
    alloc: Global,
    algebra: &DataSpec,
    forms: &Forms,
    store: &mut Store,
    runs: &mut Runs,
    bound: &mut [u32],
    term: &Term,
    op: Op,
    count: usize,
    budget: u64,
) -> Result<(), Eval>
    requires forms { AreForms (theory_of algebra.now) forms.now }
    requires constructor { (j : ℕ) → j < length (theory_of algebra.now).equations → Heads op.0 (equation_at (theory_of algebra.now) j) → ⊥ }
    requires room { HasRoom (theory_of algebra.now) (length bound.old) }
    requires stands { StandsAt (theory_of algebra.now) (term_of term.now) budget store.old runs.old (Call op count) }
    ensures room { length bound.new ≡ length bound.old }
    ensures stands { OnOk result (Stands (theory_of algebra.now) (term_of term.now) budget store.new runs.new) }
    ensures cause { IfErr result (IsCause (theory_of algebra.now) (term_of term.now) budget) }
{
    if store.hints.is_closed() {
        return plainly(
            alloc,
            algebra,
            forms,
            store,
            runs,
            bound,
            term,
            Step::Call(op, count),
            budget,
        );
    }
    let mark = mark_of(op, runs.values.top(count));
    match interned(&store.hints, &store.nodes, mark, op, runs.values.top(count)) {
        Some(node) => {
            put_value(&mut runs.values, count, node)?;
            Ok(())
        }
        None => {
            plainly(
                alloc,
                algebra,
                forms,
                store,
                runs,
                bound,
                term,
                Step::Call(op, count),
                budget,
            )?;
            note_last(
                alloc,
                &mut store.hints,
                store.nodes.len(),
                &runs.values,
                mark,
            )?;
            Ok(())
        }
    }
}

/// Takes a step.
pub fn take_step(
    alloc: Global,
    algebra: &DataSpec,
    forms: &Forms,
    store: &mut Store,
    runs: &mut Runs,
    bound: &mut [u32],
    term: &Term,
    step: Step,
    budget: u64,
) -> Result<(), Eval>
    requires forms { AreForms (theory_of algebra.now) forms.now }
    requires room { HasRoom (theory_of algebra.now) (length bound.old) }
    requires stands { StandsAt (theory_of algebra.now) (term_of term.now) budget store.old runs.old step }
    ensures room { length bound.new ≡ length bound.old }
    ensures stands { OnOk result (Stands (theory_of algebra.now) (term_of term.now) budget store.new runs.new) }
    ensures cause { IfErr result (IsCause (theory_of algebra.now) (term_of term.now) budget) }
{
    match step {
        Step::Put(_) => plainly(
            alloc, algebra, forms, store, runs, bound, term, step, budget,
        ),
        Step::Decide(..) => plainly(
            alloc, algebra, forms, store, runs, bound, term, step, budget,
        ),
        Step::Call(op, count) => {
            if forms.heads.first(algebra, op) < algebra.equations.len() {
                take_up(
                    alloc, algebra, forms, store, runs, bound, term, op, count, budget,
                )
            } else {
                build(
                    alloc, algebra, forms, store, runs, bound, term, op, count, budget,
                )
            }
        }
    }
}

/// Goes on behind a call that has come to a value, and remembers it.
pub fn close(
    alloc: Global,
    memo: &mut Memo,
    runs: &mut Runs,
    frame: Frame,
    node: u32,
) -> Result<(), Memory>
    requires later { frame.start ≤ runs.old.uses }
    ensures frames { runs.new.frames ≡ runs.old.frames }
    ensures todo { OnOk result (runs.new.todo ≡ frame.todo) }
    ensures values { OnOk result (runs.new.values ≡ node ∷ frame.values) }
    ensures uses { OnOk result (runs.new.uses ≡ runs.old.uses) }
    ensures remembered { OnOk result
        (memo.new.entries.items ≡
        memo.old.entries.items ++
        record { op = frame.op; args = frame.args; value = node; uses = runs.old.uses - frame.start } ∷ []) }
{
    let uses = runs.uses - frame.start;
    runs.todo = frame.todo;
    runs.values = frame.values;
    runs.values.push(node)?;
    memo.add(
        alloc,
        Entry {
            op: frame.op,
            args: frame.args,
            value: node,
            uses,
        },
    )
}
