// Sessions.

ghost use Rattle.std.specs.Prelude.{◌≡◌, ◌≤◌, IfOk, false, length, map};
ghost use Rattle.std.specs.List.{AllByRecursion, range_with_len};
ghost use Rattle.spec_core.specs.Code.{program_of};
ghost use Rattle.spec_core.specs.Ready.{IsReady};
ghost use Rattle.board_core.specs.Found.{AreBySorts};
ghost use Rattle.session.specs.Starting.{AreFresh, content_of, new_pass, new_work_pass, pass_of, work_pass_of};

use crate::pass::Pass;
use crate::work_pass::WorkPass;
use board_core::Forms;
use board_core::board::Board;
use run_settings::settings::Settings;
use session_board::shared::SharedBoard;
use session_board::spot::Spot;
use spec_core::code::Checked;
use spec_core::memory::Memory;
use spec_core::value::Value;
use spec_core::window::Window;
use std::alloc::Global;
use std::marker::Model;
use turn_lock::{TurnSeat, Turns};

/// A session of clients and workers, who share it by reference, each with a pass of its own. Contracts see its lock, with the part of the
/// session that stays, and the number of workers.
#[derive(Drop)]
pub struct Session {
    pub(crate) turns: Turns<SharedBoard>,
    pub(crate) alloc: Global,
    pub(crate) checked: Checked,
    pub(crate) forms: Forms,
    pub(crate) settings: Settings,
    pub(crate) windows: Vec<Window>,
    pub(crate) workers: u32,
    pub(crate) keeper: TurnSeat<SharedBoard>,
}

impl Model for Session {
    ghost use Rattle.std.specs.Coded.{codes};
    ghost use Rattle.spec_core.specs.contracts.code.Checked as c;
    ghost use Rattle.run_settings.specs.contracts.settings.Settings as t;
    ghost use Rattle.spec_core.specs.contracts.window.Window as w;
    ghost use Rattle.spec_core.specs.Theories.{theory_of};
    ghost use Rattle.board_core.specs.Rights.{AreForms};
    ghost use Rattle.session.specs.Sessions.{SessionView, IsWellMade};

    ghost Value = { SessionView };

    ghost coded = { Prim.hlevel (codes, c.the_row.coded, t.the_row.coded, w.the_row.coded) };

    ghost view = { λ s. record { lock = s.turns; workers = s.workers } };

    ghost invariant = { λ s. IsWellMade s.turns s.checked s.settings s.windows.items s.workers s.keeper ×
        AreForms (theory_of s.checked.algebra) s.forms };
}

// Windows that hold the same.
fn copy_windows(alloc: Global, windows: &[Window]) -> Result<Vec<Window>, Memory>
    ensures equal { IfOk result (λ all. map content_of all.items ≡ map content_of windows.now) }
{
    let mut all = Vec::new(alloc);
    for window in windows {
        all.push(copy_window(alloc, window)?)?;
    }
    Ok(all)
}

// A window that holds the same.
fn copy_window(alloc: Global, window: &Window) -> Result<Window, Memory>
    ensures equal { IfOk result (λ copied. content_of copied ≡ content_of window.now) }
{
    Ok(Window {
        values: copy_values(alloc, &window.values)?,
        complete: window.complete,
    })
}

// Equal values.
fn copy_values(alloc: Global, values: &[Value]) -> Result<Vec<Value>, Memory>
    ensures equal { IfOk result (λ all. all.items ≡ values.now) }
{
    let mut all = Vec::new(alloc);
    for value in values {
        all.push(value.copy(alloc)?)?;
    }
    Ok(all)
}

// Seats become the passes of workers, in their order.
fn man_workers(
    alloc: Global,
    mut seats: Vec<TurnSeat<SharedBoard>>,
    clients: u32,
) -> Result<Vec<WorkPass>, Memory>
    requires rest { AllByRecursion (λ seat. seat.holds_turn ≡ false) seats.items }
    ensures passes { IfOk result (λ passes. passes.items ≡ map (work_pass_of clients) seats.items) }
{
    let mut passes = Vec::new(alloc);
    while !seats.is_empty() {
        let seat = seats.remove(0);
        passes.push(WorkPass {
            seat,
            clients,
            taken: 0,
            handed: 0,
        })?;
    }
    Ok(passes)
}

// Seats become the passes of clients, in their order.
fn man_clients(alloc: Global, mut seats: Vec<TurnSeat<SharedBoard>>) -> Result<Vec<Pass>, Memory>
    requires fresh { AreFresh 0 seats.items }
    requires few { length seats.items ≤ 64 }
    ensures passes { IfOk result (λ passes. passes.items ≡ map pass_of seats.items) }
{
    let mut client = 0u32;
    let mut passes = Vec::new(alloc);
    while !seats.is_empty() {
        client += 1;
        let seat = seats.remove(0);
        let spot = Spot {
            lines: 0,
            actions: 0,
        };
        passes.push(Pass { seat, client, spot })?;
    }
    Ok(passes)
}

impl Session {
    /// A session of a specification that is ready, with so many clients, whose numbers begin with 1, and so many workers: the passes of the
    /// clients, by their numbers, and of the workers.
    pub fn start(
        alloc: Global,
        checked: Checked,
        settings: Settings,
        clients: u32,
        workers: u32,
    ) -> Result<(Session, Vec<Pass>, Vec<WorkPass>), Memory>
        requires ready { IsReady (program_of checked) }
        requires clients { clients ≤ 64 }
        requires workers { workers ≤ 64 }
        ensures fixed { IfOk result (λ r. (r.0.lock.fixed.checked ≡ checked) × (r.0.lock.fixed.settings ≡ settings)
            × (r.0.lock.fixed.clients ≡ clients) × (r.0.workers ≡ workers)) }
        ensures windows { IfOk result (λ r. AreBySorts (program_of checked).theory settings.values r.0.lock.fixed.windows) }
        ensures passes { IfOk result (λ r. r.1.items ≡ map (new_pass r.0.lock.id) (range_with_len 0 clients)) }
        ensures workers { IfOk result (λ r. r.2.items ≡ map (new_work_pass r.0.lock.id clients) (range_with_len clients workers)) }
    {
        let own = checked.copy(alloc)?;
        let forms = Forms::new(alloc, &own.algebra)?;
        let board = Board::new(alloc, checked, settings, clients)?;
        let windows = copy_windows(alloc, board.windows())?;
        let (turns, mut seats) = Turns::new(alloc, SharedBoard::new(board), clients + workers + 1)?;
        let Some(keeper) = seats.pop() else {
            unreachable!()
        };
        let work_seats = seats.split_off(clients as usize)?;
        let work_passes = man_workers(alloc, work_seats, clients)?;
        let passes = man_clients(alloc, seats)?;
        let session = Session {
            turns,
            alloc,
            checked: own,
            forms,
            settings,
            windows,
            workers,
            keeper,
        };
        Ok((session, passes, work_passes))
    }
}
