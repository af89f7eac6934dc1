// A table with those nodes alone of which something is still made.

ghost use Rattle.std.specs.Prelude.{◌≡◌, IfOk, OnOk, map, reverse};
ghost use Rattle.spec_core.specs.Lists.{Each};
ghost use Rattle.spec_core.specs.Terms.{term_of};
ghost use Rattle.spec_core.specs.Theories.{theory_of};
ghost use Rattle.value_nodes.specs.Copies.{AreCopies};
ghost use Rattle.value_nodes.specs.Nodes.{IsLonger};
ghost use Rattle.match_code.specs.States.{IsFrame, Stands, waiting_of};

use crate::frames::{Frame, Frames};
use crate::memo::Memo;
use crate::state::{Runs, Store};
use rewriter::compaction::FEWEST;
use spec_core::equation::DataSpec;
use spec_core::memory::Memory;
use spec_core::term::Term;
use std::alloc::Global;
use std::mem;
use value_nodes::copies::Copies;
use value_nodes::node::Nodes;

// Has the copies of nodes in another table in place of the nodes.
fn follow_frame(
    alloc: Global,
    algebra: &DataSpec,
    from: &Nodes,
    into: &mut Nodes,
    copies: &mut Copies,
    frame: Frame,
) -> Result<Frame, Memory>
    requires copies { AreCopies from.now into.old copies.old }
    requires frame { IsFrame (theory_of algebra.now) from.now frame }
    ensures copies { IfOk result (λ f. AreCopies from.now into.new copies.new) }
    ensures longer { IfOk result (λ f. IsLonger into.old into.new) }
    ensures frame { IfOk result (λ f. IsFrame (theory_of algebra.now) into.new f) }
    ensures same { IfOk result (λ f. waiting_of (theory_of algebra.now) into.new f ≡ waiting_of (theory_of algebra.now) from.now frame) }
{
    let mut args = frame.args;
    let mut todo = frame.todo;
    let mut values = frame.values;
    args.follow(alloc, from, into, copies)?;
    todo.follow(alloc, from, into, copies)?;
    values.follow(alloc, from, into, copies)?;
    Ok(Frame {
        op: frame.op,
        args,
        start: frame.start,
        todo,
        values,
    })
}

// The same of all frames, which come in the opposite order.
fn turn_over(
    alloc: Global,
    algebra: &DataSpec,
    from: &Nodes,
    into: &mut Nodes,
    copies: &mut Copies,
    frames: Frames,
) -> Result<Frames, Memory>
    requires copies { AreCopies from.now into.old copies.old }
    requires frames { Each (IsFrame (theory_of algebra.now) from.now) frames }
    ensures copies { IfOk result (λ f. AreCopies from.now into.new copies.new) }
    ensures longer { IfOk result (λ f. IsLonger into.old into.new) }
    ensures frames { IfOk result (λ f. Each (IsFrame (theory_of algebra.now) into.new) f) }
    ensures same { IfOk result (λ f.
        reverse (map (waiting_of (theory_of algebra.now) into.new) f) ≡ map (waiting_of (theory_of algebra.now) from.now) frames) }
{
    let mut left = frames;
    let mut turned = Frames::new(alloc);
    for _turn in 0..u64::MAX {
        match left.pop() {
            None => return Ok(turned),
            Some(frame) => {
                let followed = follow_frame(alloc, algebra, from, into, copies, frame)?;
                turned.push(followed)?;
            }
        }
    }
    Err(Memory)
}

// The same in their order.
fn follow_all(
    alloc: Global,
    algebra: &DataSpec,
    from: &Nodes,
    into: &mut Nodes,
    copies: &mut Copies,
    frames: Frames,
) -> Result<Frames, Memory>
    requires copies { AreCopies from.now into.old copies.old }
    requires frames { Each (IsFrame (theory_of algebra.now) from.now) frames }
    ensures copies { IfOk result (λ f. AreCopies from.now into.new copies.new) }
    ensures longer { IfOk result (λ f. IsLonger into.old into.new) }
    ensures frames { IfOk result (λ f. Each (IsFrame (theory_of algebra.now) into.new) f) }
    ensures same { IfOk result (λ f.
        map (waiting_of (theory_of algebra.now) into.new) f ≡ map (waiting_of (theory_of algebra.now) from.now) frames) }
{
    let mut followed = turn_over(alloc, algebra, from, into, copies, frames)?;
    followed.turn();
    Ok(followed)
}

// Leaves of the table's nodes those of which the runs are made, and forgets what was remembered.
fn compact(
    alloc: Global,
    algebra: &DataSpec,
    store: &mut Store,
    runs: &mut Runs,
    term: &Term,
    budget: u64,
) -> Result<(), Memory>
    requires stands { Stands (theory_of algebra.now) (term_of term.now) budget store.old runs.old }
    ensures stands { OnOk result (Stands (theory_of algebra.now) (term_of term.now) budget store.new runs.new) }
{
    let mut kept = Nodes::new(alloc);
    let mut copies = Copies::new(alloc, &store.nodes)?;
    runs.values
        .follow(alloc, &store.nodes, &mut kept, &mut copies)?;
    runs.todo
        .follow(alloc, &store.nodes, &mut kept, &mut copies)?;
    let frames = mem::replace(&mut runs.frames, Frames::new(alloc));
    runs.frames = follow_all(alloc, algebra, &store.nodes, &mut kept, &mut copies, frames)?;
    *store = Store {
        nodes: kept,
        hints: store.hints.emptied(alloc),
        memo: Memo::closed(alloc),
    };
    Ok(())
}

/// Leaves of the table's nodes those of which the runs are made, once there are as many as the limit, and changes nothing below it; the
/// next limit is twice as many nodes as are left, and at least 2^20. What was remembered is forgotten then, and nothing more is remembered
/// until the store is opened.
pub fn tidy(
    alloc: Global,
    algebra: &DataSpec,
    store: &mut Store,
    runs: &mut Runs,
    term: &Term,
    budget: u64,
    limit: usize,
) -> Result<usize, Memory>
    requires stands { Stands (theory_of algebra.now) (term_of term.now) budget store.old runs.old }
    ensures stands { IfOk result (λ l. Stands (theory_of algebra.now) (term_of term.now) budget store.new runs.new) }
{
    if store.nodes.len() < limit {
        return Ok(limit);
    }
    compact(alloc, algebra, store, runs, term, budget)?;
    Ok(store.nodes.len().saturating_mul(2).max(FEWEST))
}
