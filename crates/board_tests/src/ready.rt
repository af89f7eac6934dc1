// Actions that are made ready, and done.

ghost use Rattle.std.specs.Prelude.{◌<◌, IfOk, IfSome, IsTrue};
ghost use Rattle.rule_model.specs.Derivations.{derivation_of};
ghost use Rattle.board_core.specs.Views.{state};
ghost use Rattle.board_tests.specs.Taking.{MayTake};

use board_core::board::Board;
use decision_order::settle::Settled;
use rule_model::rules::Rules;
use spec_core::memory::Memory;
use std::alloc::Global;

// Whether fewer actions are done than may be.
fn has_steps(board: &Board) -> bool
    ensures { IsTrue result → (state board.now).actions < board.now.settings.steps }
{
    board.state().actions() < board.settings().steps as u64
}

// The pending offer that is taken next, by its number, and by which rules, where what is known decides so.
fn next_taken(alloc: Global, board: &Board) -> Result<Option<(u32, Rules)>, Memory>
    ensures may { IfOk result (λ o. IfSome o (λ r. MayTake board.now r.0 (derivation_of r.1))) }
{
    if board.stopped() || !board.goes_by_rules() || !has_steps(board) {
        return Ok(None);
    }
    board.decided_is_due();
    match board.next(alloc)? {
        Settled::Takes(number, rules) => Ok(Some((number, rules))),
        Settled::Unknown
        | Settled::Deadlocks
        | Settled::IsBeyond(_, _)
        | Settled::IsNotNow(_)
        | Settled::GoesOn(_)
        | Settled::Stalls
        | Settled::Nothing => Ok(None),
    }
}

/// Makes ready that the next offer is taken; whether one is.
pub fn reserve_next(alloc: Global, board: &mut Board) -> Result<bool, Memory> {
    match next_taken(alloc, board)? {
        None => Ok(false),
        Some((number, rules)) => {
            let name = board.offer_name(number);
            board.reserve_step(alloc, &rules, Some(name))?;
            Ok(true)
        }
    }
}

/// The next offer is taken; whether one is.
pub fn commit_next(alloc: Global, board: &mut Board) -> Result<bool, Memory> {
    match next_taken(alloc, board)? {
        None => Ok(false),
        Some((number, rules)) => {
            let name = board.offer_name(number);
            board.reserve_step(alloc, &rules, Some(name))?;
            board.commit(rules, Some(name));
            Ok(true)
        }
    }
}
