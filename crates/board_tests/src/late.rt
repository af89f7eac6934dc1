// What is handed in for a node that is gone.

use crate::working::{expanded_by, work_of};
use board_core::Piece;
use board_core::board::Board;
use board_core::job::{Job, Post};
use board_laws::stop_reason::StopReason;
use board_work::{Expansion, Gen};
use candidates::job::NodeJob;
use rule_model::reply::LimitKind;
use rule_model::rules::{Rules, Slots};
use spec_core::memory::Memory;
use std::alloc::Global;

// An action without values.
fn rules(alloc: Global) -> Rules {
    Rules::Pre(Slots::new(Vec::new(alloc)))
}

// Hands in an expansion of a node that is gone.
fn post_late(board: &mut Board, generation: Gen, work: Expansion) -> Option<Post> {
    if board.lives(generation) {
        return None;
    }
    Some(board.post(generation, work))
}

// Hands in that a node that is gone does nothing.
fn judge_late(alloc: Global, board: &mut Board, generation: Gen) -> Result<Option<Post>, Memory> {
    if board.lives(generation) {
        return Ok(None);
    }
    let piece = Piece {
        generation,
        rules: rules(alloc),
        shown: None,
    };
    Ok(Some(board.judged(alloc, piece)?))
}

// Hands in that a job at a node that is gone has no answer.
fn fail_late(board: &mut Board, generation: Gen) -> Option<Post> {
    if board.lives(generation) {
        return None;
    }
    let reason = StopReason::Limit(LimitKind::Spread);
    Some(board.fail(&NodeJob::Expand(generation), reason))
}

/// Hands in for the node that a job expands a reason to stop, what a job there could do, and that it shows nothing; whether the node is gone
/// and each of them is stale.
pub fn all_is_stale(alloc: Global, board: &mut Board, job: &Job) -> Result<bool, Memory> {
    let Some(node) = expanded_by(&job.task) else {
        return Ok(false);
    };
    let Some(work) = work_of(alloc, board, &job.origin)? else {
        return Ok(false);
    };
    let generation = Gen(node);
    let failed = fail_late(board, generation);
    let posted = post_late(board, generation, work);
    let judged = judge_late(alloc, board, generation)?;
    let stale = Some(Post::Stale);
    Ok(failed == stale && posted == stale && judged == stale)
}
