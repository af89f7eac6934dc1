// The steps that are possible.

ghost use Rattle.std.specs.Prelude.{◌≡◌, IfOk, None};
ghost use Rattle.rule_model.specs.Answers.{answer_of};
ghost use Rattle.board_core.specs.Views.{BoardView, SameLog, SameSession};
ghost use Rattle.board_lists.specs.Leaving.{IsStoppedRightly};
ghost use Rattle.simulator_steps.specs.Listing.{ComesOfLook, TellsReason};

use board_core::board::Board;
use board_lists::list::{Listing, list};
use rule_model::reply::Reply;
use spec_core::memory::Memory;
use std::alloc::Global;

/// What a look for steps comes to.
#[derive(Drop)]
pub enum Looked {
    /// These are the first of them.
    Steps(Listing),
    /// The session has stopped, for this reason.
    Stopped(Reply),
}

// Why the session has stopped.
#[tactic(auto, using(crate::proofs::Telling::told_now, crate::proofs::Telling::never_silent))]
fn why_stopped(alloc: Global, board: &Board) -> Result<Reply, Memory>
    requires stopped { IsStoppedRightly board.now }
    ensures { IfOk result (λ reply. (old : BoardView) → old.stop ≡ None → TellsReason old board.now (answer_of reply)) }
{
    match board.stop_reply(alloc)? {
        Some(reply) => Ok(reply),
        None => unreachable!(),
    }
}

// The first steps, at most so many, where the session hasn't stopped; or why it has stopped now.
fn look(alloc: Global, board: &mut Board, most: u32) -> Result<Looked, Memory>
    requires running { board.old.stop ≡ None }
    ensures look { IfOk result (ComesOfLook board.old board.new most) }
    ensures log { SameLog board.old board.new }
    ensures session { SameSession board.old board.new }
{
    match list(alloc, board, most)? {
        Some(listing) => Ok(Looked::Steps(listing)),
        None => Ok(Looked::Stopped(why_stopped(alloc, board)?)),
    }
}

/// The first steps, at most so many; or why the session has stopped.
#[tactic(auto, using(crate::proofs::Telling::told_before, crate::proofs::Telling::not_stopped))]
pub fn steps(alloc: Global, board: &mut Board, most: u32) -> Result<Looked, Memory>
    ensures look { IfOk result (ComesOfLook board.old board.new most) }
    ensures log { SameLog board.old board.new }
    ensures session { SameSession board.old board.new }
{
    match board.stop_reply(alloc)? {
        Some(reply) => Ok(Looked::Stopped(reply)),
        None => look(alloc, board, most),
    }
}
