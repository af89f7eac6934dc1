// Settling, until nothing is left.

ghost use Rattle.std.specs.Prelude.{IfOk, IsTrue, OnOk};
ghost use Rattle.board_core.specs.Views.{SameSession};
ghost use Rattle.board_work.specs.Going.{GoesOn};
ghost use Rattle.client_runs.specs.Runs.{Continues, IsSettledOn};

use board_core::board::Board;
use board_work::settling::{Progress, settle_or_work};
use board_work::working::More;
use spec_core::memory::Memory;
use std::alloc::Global;

// One entry, or one job, and others with it; whether nothing was left.
fn settle_once(alloc: Global, board: &mut Board, more: &mut More) -> Result<bool, Memory>
    ensures continues { OnOk result (Continues board.old board.new) }
    ensures goes_on { OnOk result (GoesOn board.old board.new) }
    ensures settled { IfOk result (λ done. IsTrue done → IsSettledOn board.new) }
    ensures session { SameSession board.old board.new }
{
    match settle_or_work(alloc, board, more)? {
        Progress::Entry => Ok(false),
        Progress::Work => Ok(false),
        Progress::Nothing => Ok(true),
    }
}

/// Settles, and does what jobs this needs, until nothing is left to be done.
pub fn settle_all(alloc: Global, board: &mut Board) -> Result<(), Memory>
    ensures continues { OnOk result (Continues board.old board.new) }
    ensures goes_on { OnOk result (GoesOn board.old board.new) }
    ensures settled { OnOk result (IsSettledOn board.new) }
    ensures session { SameSession board.old board.new }
{
    let mut more = More::at_first();
    for _ in 0..u64::MAX {
        if settle_once(alloc, board, &mut more)? {
            return Ok(());
        }
    }
    Err(Memory)
}
