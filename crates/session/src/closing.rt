// Sessions that are closed.

ghost use Rattle.std.specs.Prelude.{All, IfOk, OnOk};
ghost use Rattle.spec_core.specs.Code.{program_of};
ghost use Rattle.rule_model.specs.Events.{ending_of};
ghost use Rattle.rule_model.specs.Logs.{events_of};
ghost use Rattle.turn_lock.specs.Entries.{Begins};
ghost use Rattle.session_closing.specs.Sessions.{IsWholeSession};
ghost use Rattle.session_board.specs.Lines.{events_in};
ghost use Rattle.session.specs.Closing.{AddsSeats, AreAllClients, AreAllWorkers, AreSeatsOf, HasItsEntries, IsSeatOf, IsSeatOfWorker};
ghost use Rattle.session.specs.Passes.{HasHalted};
ghost use Rattle.session.specs.Sessions.{IsClientOf, IsWorkerOf, who_of};

use crate::pass::Pass;
use crate::session::Session;
use crate::work_pass::WorkPass;
use rule_model::log::{End, Log};
use session_board::shared::SharedBoard;
use session_closing::closing;
use spec_core::memory::Memory;
use std::alloc::Global;
use turn_lock::TurnSeat;

// The seats of clients, behind others.
fn add_client_seats(seats: &mut Vec<TurnSeat<SharedBoard>>, passes: Vec<Pass>) -> Result<(), Memory>
    ensures seats { OnOk result (AddsSeats IsSeatOf passes.items seats.old.items seats.new.items) }
{
    let mut passes = passes;
    while let Some(pass) = passes.pop() {
        let Pass {
            seat,
            client: _,
            spot: _,
        } = pass;
        seats.push(seat)?;
    }
    Ok(())
}

// The seats of workers, behind others.
fn add_worker_seats(
    seats: &mut Vec<TurnSeat<SharedBoard>>,
    passes: Vec<WorkPass>,
) -> Result<(), Memory>
    ensures seats { OnOk result (AddsSeats IsSeatOfWorker passes.items seats.old.items seats.new.items) }
{
    let mut passes = passes;
    while let Some(pass) = passes.pop() {
        let WorkPass {
            seat,
            clients: _,
            taken: _,
            handed: _,
        } = pass;
        seats.push(seat)?;
    }
    Ok(())
}

// The seats of clients and of workers, and one more.
fn all_seats(
    alloc: Global,
    passes: Vec<Pass>,
    workers: Vec<WorkPass>,
    keeper: TurnSeat<SharedBoard>,
) -> Result<Vec<TurnSeat<SharedBoard>>, Memory>
    ensures seats { IfOk result (λ seats. AreSeatsOf passes.items workers.items keeper seats.items) }
{
    let mut seats = Vec::new(alloc);
    add_client_seats(&mut seats, passes)?;
    add_worker_seats(&mut seats, workers)?;
    seats.push(keeper)?;
    Ok(seats)
}

impl Session {
    /// Closes the session, where all its passes are handed back: the clients that are open leave, in ascending order, and what is left is
    /// done. The log, and how the session ends. Where a turn met want of memory, so does this. It waits for nobody.
    pub fn close(self, passes: Vec<Pass>, workers: Vec<WorkPass>) -> Result<(Log, End), Memory>
        requires clients { All (IsClientOf self) passes.items }
        requires all_clients { AreAllClients self.lock.fixed.clients passes.items }
        requires workers { All (λ p. IsWorkerOf self (who_of p)) workers.items }
        requires all_workers { AreAllWorkers self.lock.fixed.clients self.workers workers.items }
        ensures session { IfOk result (λ r. IsWholeSession (program_of self.lock.fixed.checked) self.lock.fixed.settings
            self.lock.fixed.clients (events_of r.0) (ending_of r.1)) }
        ensures clients_begin { IfOk result (λ r. All (λ p. Begins (events_in p.seen) (events_of r.0)) passes.items) }
        ensures workers_begin { IfOk result (λ r. All (λ p. Begins (events_in p.seen) (events_of r.0)) workers.items) }
        ensures clients_running { IfOk result (λ r. All (λ p. HasHalted p.seen → ⊥) passes.items) }
        ensures workers_running { IfOk result (λ r. All (λ p. HasHalted p.seen → ⊥) workers.items) }
        ensures own { IfOk result (λ r. All (HasItsEntries (events_of r.0)) passes.items) }
    {
        let Session {
            turns,
            alloc,
            checked: _,
            forms: _,
            settings: _,
            windows: _,
            workers: _,
            keeper,
        } = self;
        let seats = all_seats(alloc, passes, workers, keeper)?;
        let board = turns.close(seats).into_board()?;
        closing::close(alloc, board)
    }
}
