// One step of a session without threads: the next entry, or the next jobs.

ghost use Rattle.std.specs.Prelude.{◌≡◌, IfOk, IsTrue, false};
ghost use Rattle.board_core.specs.Views.{SameSession};
ghost use Rattle.board_work.specs.Handed.{HandsIn};
ghost use Rattle.board_work.specs.Settling.{HasComeNext, HasNoJob, HasWorked, IsLike, IsSettledOn};

use crate::working::{More, work_on};
use board_core::board::Board;
use board_core::job::Batch;
use spec_core::memory::Memory;
use std::alloc::Global;

/// What a step of a session without threads comes to.
#[derive(Clone, Copy, Debug, PartialEq, Eq)]
pub enum Progress {
    /// The next entry was appended.
    Entry,
    /// The first job that the rules needed was done, and maybe others with it, or a reason stopped the session.
    Work,
    /// Nothing was left to be done.
    Nothing,
}

// Does the first job that the rules need, whoever has taken it, and others of its kind with it, or finds a reason to stop the session;
// whether there was either.
fn work_next(alloc: Global, board: &mut Board, more: &mut More) -> Result<bool, Memory>
    ensures handed { HandsIn board.old board.new }
    ensures work { IfOk result (λ worked. IsTrue worked → HasWorked board.old board.new) }
    ensures none { IfOk result (λ worked. worked ≡ false → HasNoJob board.old board.new) }
{
    board.give_back_all();
    if board.stopped() {
        return Ok(false);
    }
    board.jobs_give_reasons();
    let asked = more.with_next(board);
    match board.take_jobs(alloc, asked.count)? {
        None => Ok(board.stopped()),
        Some(Batch { first, others }) => {
            work_on(alloc, board, first, others)?;
            *more = asked.grown();
            Ok(true)
        }
    }
}

// Does the first job, and others with it, where one is likely; whether there was one.
fn work_if_expected(alloc: Global, board: &mut Board, more: &mut More) -> Result<bool, Memory>
    ensures handed { HandsIn board.old board.new }
    ensures work { IfOk result (λ worked. IsTrue worked → HasWorked board.old board.new) }
    ensures none { IfOk result (λ worked. worked ≡ false → IsLike board.old board.new × (board.new.stop ≡ board.old.stop)) }
{
    if more.expects_job(board) {
        work_next(alloc, board, more)
    } else {
        Ok(false)
    }
}

// One entry, where what is known decides it, or else one job, and others with it.
fn settle_else_work(alloc: Global, board: &mut Board, more: &mut More) -> Result<Progress, Memory>
    ensures entry { IfOk result (λ progress. progress ≡ Progress.Entry → HasComeNext board.old board.new) }
    ensures handed { IfOk result (λ progress. (progress ≡ Progress.Entry → ⊥) → HandsIn board.old board.new) }
    ensures work { IfOk result (λ progress. progress ≡ Progress.Work → HasWorked board.old board.new) }
    ensures nothing { IfOk result (λ progress. progress ≡ Progress.Nothing → IsSettledOn board.new) }
    ensures session { SameSession board.old board.new }
{
    if board.settle(alloc)?.is_some() {
        *more = More::at_first();
        return Ok(Progress::Entry);
    }
    if work_next(alloc, board, more)? {
        Ok(Progress::Work)
    } else {
        Ok(Progress::Nothing)
    }
}

/// One entry, or one job, and others with it, by turns until nothing is left: each entry comes as soon as what is known decides it. Which of
/// the two is looked for first goes by `more`, which says how many jobs are done together, and what comes doesn't depend on it.
pub fn settle_or_work(alloc: Global, board: &mut Board, more: &mut More) -> Result<Progress, Memory>
    ensures entry { IfOk result (λ progress. progress ≡ Progress.Entry → HasComeNext board.old board.new) }
    ensures handed { IfOk result (λ progress. (progress ≡ Progress.Entry → ⊥) → HandsIn board.old board.new) }
    ensures work { IfOk result (λ progress. progress ≡ Progress.Work → HasWorked board.old board.new) }
    ensures nothing { IfOk result (λ progress. progress ≡ Progress.Nothing → IsSettledOn board.new) }
    ensures session { SameSession board.old board.new }
{
    if work_if_expected(alloc, board, more)? {
        return Ok(Progress::Work);
    }
    settle_else_work(alloc, board, more)
}
