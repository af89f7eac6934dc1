// Jobs, done at once.

ghost use Rattle.std.specs.Prelude.{◌≡◌};

use board_core::board::Board;
use board_work::working::work;
use board_work::{Expansion, Origin};
use candidates::job::NodeJob;
use node_values::stop::Stop;
use node_work::node::expand_node;
use spec_core::memory::Memory;
use std::alloc::Global;

/// How many uses of equations are made for a value.
pub const BUDGET: u64 = 100;

/// The node of a job to expand one.
pub fn expanded_by(task: &NodeJob) -> Option<u128> {
    match task {
        NodeJob::Expand(generation) => Some(generation.0),
        NodeJob::Judge(_, _) => None,
    }
}

/// What an origin can do; None where that stops.
pub fn work_of(alloc: Global, board: &Board, origin: &Origin) -> Result<Option<Expansion>, Memory> {
    board.log_is_a_derivation();
    match expand_node(alloc, &board.prepared(), board.windows(), origin, BUDGET) {
        Ok(work) => Ok(Some(work)),
        Err(Stop::Memory) => Err(Memory),
        Err(_) => Ok(None),
    }
}

/// Takes a job and does it; whether one was free.
pub fn do_job(alloc: Global, board: &mut Board) -> Result<bool, Memory> {
    match board.take_job(alloc)? {
        None => Ok(false),
        Some(job) => {
            work(alloc, board, job)?;
            Ok(true)
        }
    }
}

/// Settles, once the jobs are done that this needs; the number of the entry.
pub fn work_and_settle(alloc: Global, board: &mut Board) -> Result<Option<u64>, Memory> {
    for _turn in 0..8 {
        if let Some(number) = board.settle(alloc)? {
            return Ok(Some(number));
        }
        if !do_job(alloc, board)? {
            return Ok(None);
        }
    }
    Ok(None)
}
