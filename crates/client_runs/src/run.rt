// The session of one client, or of none.

ghost use Rattle.std.specs.Prelude.{◌≡◌, ◌∷◌, ◌++◌, ◌<◌, ◌≤◌, [], IfOk, OnOk, List, None, length, map};
ghost use Rattle.spec_core.specs.Code.{program_of};
ghost use Rattle.spec_core.specs.Lists.{Each};
ghost use Rattle.spec_core.specs.Ready.{IsReady};
ghost use Rattle.rule_model.specs.Events.{ending_of};
ghost use Rattle.rule_model.specs.Logs.{events_of};
ghost use Rattle.rule_model.specs.Wishes.{Wish};
ghost use Rattle.rule_model.specs.States.{State};
ghost use Rattle.rule_model.specs.WishViews.{wish_of};
ghost use Rattle.board_core.specs.JobValues.{GivesValues};
ghost use Rattle.board_core.specs.Views.{program, state, SameSetting};
ghost use Rattle.client_runs.specs.Runs.{Continues, HasBegun, IsEndedRun, IsRunOn};
ghost use Rattle.board_work.specs.Runs.{IsClientRun};

use crate::settling_all::settle_all;
use board_core::board::Board;
use board_record::{LeaveFault, PendFault};
use rule_model::log::{End, Log};
use rule_model::wish::ClientWish;
use run_settings::settings::Settings;
use spec_core::code::Checked;
use spec_core::memory::Memory;
use std::alloc::Global;

// The client makes its next offer, once nothing else is left to be done.
fn offer_next(alloc: Global, board: &mut Board, wish: &ClientWish) -> Result<(), Memory>
    requires open { (state board.old).open_clients ≡ 1 ∷ [] }
    requires gate { wish.now.offer.gate.0 < length (program board.old).gates }
    requires values { GivesValues (program board.old).theory wish.now.offer }
    ensures open { OnOk result ((state board.new).open_clients ≡ 1 ∷ []) }
    ensures offered { OnOk result ((start : State) (made : List Wish) → IsRunOn start made board.old →
        IsRunOn start (made ++ wish_of wish.now ∷ []) board.new) }
    ensures setting { SameSetting board.old board.new }
{
    settle_all(alloc, board)?;
    board.log_is_a_derivation();
    match board.pend(alloc, 1, &wish.offer, wish.ask) {
        Ok(_) => Ok(()),
        Err(PendFault::Memory) => Err(Memory),
        Err(PendFault::NotOpen) => unreachable!(),
        Err(PendFault::AlreadyPending) => unreachable!(),
        Err(PendFault::NoSuchGate) => unreachable!(),
    }
}

// The client leaves, once nothing else is left to be done.
fn leave(alloc: Global, board: &mut Board) -> Result<(), Memory>
    requires open { (state board.old).open_clients ≡ 1 ∷ [] }
    ensures open { OnOk result ((state board.new).open_clients ≡ []) }
    ensures continues { OnOk result (Continues board.old board.new) }
    ensures setting { SameSetting board.old board.new }
{
    settle_all(alloc, board)?;
    board.log_is_a_derivation();
    match board.leave(alloc, 1) {
        Ok(()) => Ok(()),
        Err(LeaveFault::Memory) => Err(Memory),
        Err(LeaveFault::NotOpen) => unreachable!(),
        Err(LeaveFault::Pending) => unreachable!(),
    }
}

// The client makes these offers in order, and leaves.
fn offer_all(alloc: Global, board: &mut Board, wishes: &[ClientWish]) -> Result<(), Memory>
    requires open { (state board.old).open_clients ≡ 1 ∷ [] }
    requires gates { Each (λ w. w.offer.gate.0 < length (program board.old).gates) (map wish_of wishes.now) }
    requires values { Each (λ w. GivesValues (program board.old).theory w.offer) (map wish_of wishes.now) }
    ensures open { OnOk result ((state board.new).open_clients ≡ []) }
    ensures offered { OnOk result ((start : State) (made : List Wish) → IsRunOn start made board.old →
        IsRunOn start (made ++ map wish_of wishes.now) board.new) }
    ensures setting { SameSetting board.old board.new }
{
    match wishes {
        [] => leave(alloc, board),
        [wish, others @ ..] => {
            offer_next(alloc, board, wish)?;
            offer_all(alloc, board, others)
        }
    }
}

// A board for a session that begins, with so many clients.
fn begin(alloc: Global, checked: Checked, settings: Settings, clients: u32) -> Result<Board, Memory>
    requires ready { IsReady (program_of checked) }
    requires clients { clients ≤ 64 }
    ensures checked { IfOk result (λ b. b.session.checked ≡ checked) }
    ensures settings { IfOk result (λ b. b.settings ≡ settings) }
    ensures begun { IfOk result (HasBegun clients) }
{
    let board = Board::new(alloc, checked, settings, clients)?;
    board.log_is_a_derivation();
    Ok(board)
}

// What is left to be done, where no client is open, and then the log and how the session ends.
fn finish(alloc: Global, board: Board) -> Result<(Log, End), Memory>
    requires closed { (state board).open_clients ≡ [] }
    ensures { IfOk result (λ r. (start : State) (wishes : List Wish) → IsRunOn start wishes board →
        IsEndedRun (program board) board.settings start wishes (events_of r.0) (ending_of r.1)) }
{
    let mut board = board;
    settle_all(alloc, &mut board)?;
    board.log_is_a_derivation();
    board.first_trees_say();
    let (log, end) = board.finish(alloc)?;
    match end {
        Some(end) => Ok((log, end)),
        None => unreachable!(),
    }
}

// The session of no client.
fn run_alone(alloc: Global, checked: Checked, settings: Settings) -> Result<(Log, End), Memory>
    requires ready { IsReady (program_of checked) }
    ensures { IfOk result (λ r. IsClientRun (program_of checked) settings [] (events_of r.0) (ending_of r.1)) }
{
    let board = begin(alloc, checked, settings, 0)?;
    finish(alloc, board)
}

// The session of one client.
fn run_client(
    alloc: Global,
    checked: Checked,
    settings: Settings,
    wishes: &[ClientWish],
) -> Result<(Log, End), Memory>
    requires ready { IsReady (program_of checked) }
    requires some { wishes.now ≡ [] → ⊥ }
    requires gates { Each (λ w. w.offer.gate.0 < length (program_of checked).gates) (map wish_of wishes.now) }
    requires values { Each (λ w. GivesValues (program_of checked).theory w.offer) (map wish_of wishes.now) }
    ensures { IfOk result (λ r. IsClientRun (program_of checked) settings (map wish_of wishes.now) (events_of r.0) (ending_of r.1)) }
{
    let mut board = begin(alloc, checked, settings, 1)?;
    offer_all(alloc, &mut board, wishes)?;
    finish(alloc, board)
}

/// The session of a specification with one client, which makes these offers in order, whose fields give values, and leaves, or with none,
/// where it makes no offer: its log, and how it ends.
pub fn client_run(
    alloc: Global,
    checked: Checked,
    settings: Settings,
    wishes: &[ClientWish],
) -> Result<(Log, End), Memory>
    requires ready { IsReady (program_of checked) }
    requires gates { Each (λ w. w.offer.gate.0 < length (program_of checked).gates) (map wish_of wishes.now) }
    requires values { Each (λ w. GivesValues (program_of checked).theory w.offer) (map wish_of wishes.now) }
    ensures run { IfOk result (λ r. IsClientRun (program_of checked) settings (map wish_of wishes.now) (events_of r.0) (ending_of r.1)) }
{
    if wishes.is_empty() {
        run_alone(alloc, checked, settings)
    } else {
        run_client(alloc, checked, settings, wishes)
    }
}
