// Boards that are closed.

ghost use Rattle.std.specs.Prelude.{◌≡◌, [], IfOk, OnOk};
ghost use Rattle.rule_model.specs.Events.{ending_of};
ghost use Rattle.rule_model.specs.Logs.{events_of};
ghost use Rattle.board_core.specs.Views.{events, program, state};
ghost use Rattle.session_laws.specs.Sessions.{IsDriven, IsWholeSession};
ghost use Rattle.session_closing.specs.Closing.{AllLeave, IsClosedOff, LeavesIfOpen};

use board_core::board::Board;
use board_record::LeaveFault;
use client_runs::settling_all::settle_all;
use rule_model::log::{End, Log};
use spec_core::memory::Memory;
use std::alloc::Global;

// A client leaves, if it is open.
fn leave_if_open(alloc: Global, board: &mut Board, client: u32) -> Result<(), Memory>
    requires idle { (state board.old).pending ≡ [] }
    ensures leaves { OnOk result (LeavesIfOpen client board.old board.new) }
{
    if !board.state().is_open(client) {
        return Ok(());
    }
    match board.leave(alloc, client) {
        Ok(()) => Ok(()),
        Err(LeaveFault::Memory) => Err(Memory),
        Err(LeaveFault::NotOpen) => unreachable!(),
        Err(LeaveFault::Pending) => unreachable!(),
    }
}

// All clients that are open leave, in ascending order.
fn leave_all(alloc: Global, board: &mut Board) -> Result<(), Memory>
    requires idle { (state board.old).pending ≡ [] }
    ensures leave { OnOk result (AllLeave board.old board.new) }
{
    let clients = board.clients();
    board.log_is_a_derivation();
    for number in 0..clients {
        leave_if_open(alloc, board, number + 1)?;
    }
    Ok(())
}

/// Closes the session of a board on which no offer is pending: the clients that are open leave, in ascending order, and what is left is done.
/// The log, and how the session ends.
pub fn close(alloc: Global, board: Board) -> Result<(Log, End), Memory>
    requires driven { IsDriven (program board) board.settings board.session.clients board.stop (events board) (state board) }
    requires idle { (state board).pending ≡ [] }
    ensures log { IfOk result (λ r. IsClosedOff board (events_of r.0)) }
    ensures session { IfOk result (λ r. IsWholeSession (program board) board.settings board.session.clients (events_of r.0) (ending_of r.1)) }
{
    let mut board = board;
    leave_all(alloc, &mut board)?;
    settle_all(alloc, &mut board)?;
    board.log_is_a_derivation();
    board.first_trees_say();
    let (log, end) = board.finish(alloc)?;
    match end {
        Some(end) => Ok((log, end)),
        None => unreachable!(),
    }
}
