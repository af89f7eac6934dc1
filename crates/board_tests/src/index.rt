// The index of a board's tree: before nodes are expanded, then, and after the action.

use crate::telling::{A, B, any_number, board_of};
use crate::working::{do_job, work_and_settle};
use board_core::board::Board;
use offer_index::index::OfferIndex;
use offer_index::{OpenComposite, Scheme};
use spec_core::items::Gate;
use spec_core::memory::Memory;
use std::alloc::Global;
use std::test::Fail;

// Three take part in the one action, which is `a !s(0)`. Two of them have predicates, so each of the two values that are looked at counts.
const THREE: &str =
    "(a ?z : N; stop |[a]| a ?y : N [p(y) = 0]; stop) |[a]| a ?x : N [x = s(0)]; stop";

fn index_of(alloc: Global, board: &Board) -> Result<OfferIndex, Memory> {
    board.log_is_a_derivation();
    OfferIndex::new(alloc, board.checked(), board.windows(), board.nodes())
}

fn change(alloc: Global, board: &Board, index: &mut OfferIndex) -> Result<(), Memory> {
    board.log_is_a_derivation();
    index.changed(alloc, board.checked(), board.windows(), board.nodes())
}

// How many take part, up to three.
fn participants(composite: &OpenComposite) -> u32 {
    match &composite.scheme {
        Scheme::Both(left, _) => match &**left {
            Scheme::Both(_, _) => 3,
            _ => 2,
        },
        _ => 1,
    }
}

// How many take part in the first composite at a gate, and whether there is another.
fn first_at(index: &OfferIndex, gate: Option<Gate>) -> (u32, bool) {
    let mut offers = index.offers(gate);
    let first = match offers.next() {
        None => 0,
        Some(composite) => participants(composite),
    };
    (first, offers.next().is_some())
}

// What an index tells: its total, and the first composite at the first gate, at the second, and at none.
type Told = (u64, (u32, bool), (u32, bool), (u32, bool));

fn told(index: &OfferIndex) -> Told {
    let first = first_at(index, Some(Gate(A)));
    let second = first_at(index, Some(Gate(B)));
    (index.total(), first, second, first_at(index, None))
}

const NOTHING: Told = (0, (0, false), (0, false), (0, false));

const ONE_OF_THREE: Told = (2, (3, false), (0, false), (0, false));

// Expands three nodes; whether there were so many jobs.
fn expand_three(alloc: Global, board: &mut Board) -> Result<bool, Memory> {
    for _node in 0..3 {
        if !do_job(alloc, board)? {
            return Ok(false);
        }
    }
    Ok(true)
}

// The client offers, and each node is expanded; whether it came so far.
fn begin(alloc: Global, board: &mut Board) -> Result<bool, Memory> {
    let offer = any_number(alloc)?;
    if board.pend(alloc, 1, &offer, false) != Ok(1) {
        return Ok(false);
    }
    expand_three(alloc, board)
}

// What an index tells while each node waits, once all are expanded, and after the action; None where the session doesn't come so far.
fn told_in_turn(alloc: Global, board: &mut Board) -> Result<Option<(Told, Told, Told)>, Memory> {
    let mut index = index_of(alloc, board)?;
    let waiting = told(&index);
    if !begin(alloc, board)? {
        return Ok(None);
    }
    change(alloc, board, &mut index)?;
    let expanded = told(&index);
    if work_and_settle(alloc, board)? != Some(1) {
        return Ok(None);
    }
    change(alloc, board, &mut index)?;
    Ok(Some((waiting, expanded, told(&index))))
}

#[test]
fn an_index_follows_its_tree(rt: HostRuntime) -> Result<(), Fail> {
    let board = board_of(rt.alloc(), "noexit", THREE, 10, 1)?;
    let mut board = board.expect(&rt, "accepted");
    assert_eq!(rt;
        told_in_turn(rt.alloc(), &mut board)?,
        Some((NOTHING, ONE_OF_THREE, NOTHING))
    );
    Ok(())
}
