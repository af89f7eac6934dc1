// The main loop.

ghost use Rattle.std.specs.Prelude.{◌≡◌, [], IfOk, IfErr, IfSome, IfNone, length};
ghost use Rattle.spec_core.specs.Executable.{IsExecutable};
ghost use Rattle.spec_core.specs.Terms.{term_of};
ghost use Rattle.spec_core.specs.Theories.{theory_of};
ghost use Rattle.rewriter.specs.Calls.{HasRoom};
ghost use Rattle.match_code.specs.Rights.{AreForms};
ghost use Rattle.match_code.specs.States.{Stands, IsCause, IsStore, IsEnd};

use crate::moves::{close, take_step};
use crate::rights::Forms;
use crate::state::{Runs, Store};
use crate::tidying::tidy;
use rewriter::Eval;
use rewriter::compaction::FEWEST;
use rewriter::run::the_value;
use spec_core::equation::DataSpec;
use spec_core::term::Term;
use std::alloc::Global;

// Goes on behind the innermost call; or gives the node of the term's value, where no call is run.
fn leave(
    alloc: Global,
    algebra: &DataSpec,
    store: &mut Store,
    runs: &mut Runs,
    term: &Term,
    budget: u64,
) -> Result<Option<u32>, Eval>
    requires executable { IsExecutable (theory_of algebra.now) }
    requires stands { Stands (theory_of algebra.now) (term_of term.now) budget store.old runs.old }
    requires done { runs.old.todo ≡ [] }
    ensures stands { IfOk result (λ r. IfNone r (Stands (theory_of algebra.now) (term_of term.now) budget store.new runs.new)) }
    ensures ended { IfOk result (λ r. IfSome r (IsEnd (theory_of algebra.now) (term_of term.now) budget store.new.nodes)) }
    ensures store { IfOk result (λ r. IsStore (theory_of algebra.now) store.new) }
    ensures cause { IfErr result (IsCause (theory_of algebra.now) (term_of term.now) budget) }
{
    let node = the_value(&mut runs.values)?;
    match runs.frames.pop() {
        None => Ok(Some(node)),
        Some(frame) => {
            close(alloc, &mut store.memo, runs, frame, node)?;
            Ok(None)
        }
    }
}

// Takes the next step, or goes on behind the innermost call; or gives the node of the term's value.
fn turn(
    alloc: Global,
    algebra: &DataSpec,
    forms: &Forms,
    store: &mut Store,
    runs: &mut Runs,
    bound: &mut [u32],
    term: &Term,
    budget: u64,
) -> Result<Option<u32>, Eval>
    requires forms { AreForms (theory_of algebra.now) forms.now }
    requires room { HasRoom (theory_of algebra.now) (length bound.old) }
    requires stands { Stands (theory_of algebra.now) (term_of term.now) budget store.old runs.old }
    ensures room { length bound.new ≡ length bound.old }
    ensures stands { IfOk result (λ r. IfNone r (Stands (theory_of algebra.now) (term_of term.now) budget store.new runs.new)) }
    ensures ended { IfOk result (λ r. IfSome r (IsEnd (theory_of algebra.now) (term_of term.now) budget store.new.nodes)) }
    ensures store { IfOk result (λ r. IsStore (theory_of algebra.now) store.new) }
    ensures cause { IfErr result (IsCause (theory_of algebra.now) (term_of term.now) budget) }
{
    match runs.todo.pop() {
        Some(step) => {
            take_step(
                alloc, algebra, forms, store, runs, bound, term, step, budget,
            )?;
            Ok(None)
        }
        None => leave(alloc, algebra, store, runs, term, budget),
    }
}

/// After how many turns an evaluation remembers calls, where it doesn't from the first on: short ones would pay more for it than they gain.
const LONG: u64 = 65_536;

/// After how many turns the operations that were given up are tried again.
const AGAIN: u64 = 1_048_576;

// What a turn of this number begins with.
fn begin(store: &mut Store, number: u64)
    ensures nodes { store.new.nodes ≡ store.old.nodes }
    ensures entries { store.new.memo.entries ≡ store.old.memo.entries }
{
    if number % LONG == LONG - 1 {
        store.open();
    }
    if number % AGAIN == AGAIN - 1 {
        store.memo.try_again();
    }
}

/// Goes on to the end: the node of the term's value.
pub fn run(
    alloc: Global,
    algebra: &DataSpec,
    forms: &Forms,
    store: &mut Store,
    runs: &mut Runs,
    bound: &mut [u32],
    term: &Term,
    budget: u64,
) -> Result<u32, Eval>
    requires forms { AreForms (theory_of algebra.now) forms.now }
    requires room { HasRoom (theory_of algebra.now) (length bound.old) }
    requires stands { Stands (theory_of algebra.now) (term_of term.now) budget store.old runs.old }
    ensures room { length bound.new ≡ length bound.old }
    ensures ended { IfOk result (IsEnd (theory_of algebra.now) (term_of term.now) budget store.new.nodes) }
    ensures store { IfOk result (λ n. IsStore (theory_of algebra.now) store.new) }
    ensures cause { IfErr result (IsCause (theory_of algebra.now) (term_of term.now) budget) }
{
    let mut limit = FEWEST;
    for number in 0..u64::MAX {
        begin(store, number);
        match turn(alloc, algebra, forms, store, runs, bound, term, budget)? {
            Some(node) => return Ok(node),
            None => {
                limit = tidy(alloc, algebra, store, runs, term, budget, limit)?;
            }
        }
    }
    Err(Eval::Memory)
}
