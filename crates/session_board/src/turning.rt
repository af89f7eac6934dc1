// What a thread does under its turn.

ghost use Rattle.std.specs.Prelude.{◌≡◌, IfOk, true};
ghost use Rattle.board_work.specs.Going.{GoesOn};
ghost use Rattle.session_board.specs.Turning.{is_idle, ComesOfTurn, StaysStill};

use board_core::board::Board;
use board_core::job::Job;
use spec_core::memory::Memory;
use std::alloc::Global;

/// What came of a turn.
#[derive(Drop)]
pub enum Turn {
    /// A job that is to be done without the turn.
    Free(Job),
    /// An entry was appended.
    Settled,
    /// There is nothing to do now, and a client is open.
    Idle,
    /// There is nothing to do, and no client is open.
    Over,
}

impl Turn {
    // Whether nothing was to be done.
    fn is_idle(&self) -> bool
        ensures { result ≡ is_idle self.now }
    {
        match self {
            Turn::Free(_) => false,
            Turn::Settled => false,
            Turn::Idle => true,
            Turn::Over => true,
        }
    }

    /// Whether nothing was to be done, and the session had stopped before the turn just where it had after it.
    pub fn rests(&self, before: bool, after: bool) -> bool
        ensures { result ≡ true → (is_idle self.now ≡ true) × (after ≡ before) }
    {
        self.is_idle() && after == before
    }
}

/// One step of a session: the next entry, where what is known decides it; else a job that the rules still need and that isn't out.
pub fn one_step(alloc: Global, board: &mut Board) -> Result<Turn, Memory>
    ensures turn { IfOk result (ComesOfTurn board.old board.new) }
    ensures still { IfOk result (λ turn. is_idle turn ≡ true → StaysStill board.old board.new) }
    ensures goes_on { GoesOn board.old board.new }
{
    if board.settle(alloc)?.is_some() {
        return Ok(Turn::Settled);
    }
    board.jobs_give_reasons();
    match board.take_job(alloc)? {
        Some(job) => Ok(Turn::Free(job)),
        None => {
            if board.open_clients() == 0 {
                Ok(Turn::Over)
            } else {
                Ok(Turn::Idle)
            }
        }
    }
}
