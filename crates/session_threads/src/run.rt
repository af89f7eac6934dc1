// The session of clients and workers in threads.

ghost use Rattle.std.specs.Prelude.{◌≡◌, ◌≤◌, ◌<◌, ◌++◌, ◌∷◌, [], IfOk, OnOk, length, map};
ghost use Rattle.spec_core.specs.Code.{program_of};
ghost use Rattle.spec_core.specs.Lists.{Each};
ghost use Rattle.spec_core.specs.Ready.{IsReady};
ghost use Rattle.rule_model.specs.Events.{ending_of};
ghost use Rattle.rule_model.specs.Logs.{events_of};
ghost use Rattle.symbolic_rules.specs.Windows.{Windows};
ghost use Rattle.board_laws.specs.JobValues.{GivesValues};
ghost use Rattle.board_laws.specs.Next.{AreSessionWindows};
ghost use Rattle.session_laws.specs.Sessions.{IsWholeSession};
ghost use Rattle.session_threads.specs.Rows.{client_passes, worker_passes, worker_row, AreClientRows, AreServed, IsDone, IsReadyRow};
ghost use Rattle.session_threads.specs.Runs.{all_wishes_of, AnswersClients};

use crate::places::Refusals;
use crate::rows::Row;
use crate::threads::serve_rows;
use rule_model::log::{End, Log};
use rule_model::wish::ClientWish;
use run_settings::settings::Settings;
use session::pass::Pass;
use session::session::Session;
use session::work_pass::WorkPass;
use session_laws::answers::whole_sessions_answer_clients;
use spec_core::code::Checked;
use spec_core::memory::Memory;
use std::alloc::Global;
use std::sync::Wait;
use std::thread;
use std::thread::Threads;
use worker_drive::Probe;

// The rows of the workers, in order.
fn worker_rows<'w>(alloc: Global, mut passes: Vec<WorkPass>) -> Result<Vec<Row<'w>>, Memory>
    ensures rows { IfOk result (λ rows. rows.items ≡ map worker_row passes.items) }
{
    let mut rows = Vec::new(alloc);
    while !passes.is_empty() {
        let pass = passes.remove(0);
        rows.push(Row::Worker {
            pass,
            is_done: false,
        })?;
    }
    Ok(rows)
}

// And those of the clients before them.
fn add_client_rows<'w>(
    rows: &mut Vec<Row<'w>>,
    mut passes: Vec<Pass>,
    clients: &'w [Vec<ClientWish>],
) -> Result<(), Memory>
    requires each { length passes.items ≡ length clients.now }
    ensures rows { OnOk result (AreClientRows passes.items (map all_wishes_of clients.now) rows.old.items rows.new.items) }
{
    while let Some(pass) = passes.pop() {
        let wishes = &clients[passes.len()];
        rows.insert(
            0,
            Row::Client {
                pass,
                wishes,
                is_done: false,
            },
        )?;
    }
    Ok(())
}

// Each row in a thread of its own, as far as threads can be started.
fn serve_all<'w, R: Threads + Wait + Sync, P: Probe + Sync>(
    rt: &R,
    alloc: Global,
    session: &Session,
    rows: Vec<Row<'w>>,
    probe: &P,
) -> Result<Vec<Row<'w>>, Memory>
    requires ready { Each (IsReadyRow session.now) rows.items }
    ensures served { IfOk result (λ news. AreServed rows.entry.items news.items) }
{
    let refusals = &Refusals::new();
    thread::scope(
        thread::scope_env(),
        rt,
        move |scope| -> Result<Vec<Row>, Memory>
            requires { Each (IsReadyRow session.now) rows.items }
            ensures { IfOk result (λ news. AreServed rows.entry.items news.items) }
        { serve_rows(scope, rt, alloc, session, rows, probe, refusals) },
    )
}

// Hands on the pass of a row that has done what it was to do.
fn add_pass(clients: &mut Vec<Pass>, workers: &mut Vec<WorkPass>, row: Row) -> Result<(), Memory>
    ensures clients { OnOk result (clients.new.items ≡ clients.old.items ++ client_passes (row.entry ∷ [])) }
    ensures workers { OnOk result (workers.new.items ≡ workers.old.items ++ worker_passes (row.entry ∷ [])) }
    ensures done { OnOk result (IsDone row.entry) }
{
    match row {
        Row::Client {
            pass,
            wishes: _,
            is_done,
        } => {
            if !is_done {
                return Err(Memory);
            }
            clients.push(pass)?;
            Ok(())
        }
        Row::Worker { pass, is_done } => {
            if !is_done {
                return Err(Memory);
            }
            workers.push(pass)?;
            Ok(())
        }
    }
}

// The passes of rows, where each has done what it was to do.
fn passes_of(alloc: Global, mut rows: Vec<Row>) -> Result<(Vec<Pass>, Vec<WorkPass>), Memory>
    ensures clients { IfOk result (λ r. r.0.items ≡ client_passes rows.entry.items) }
    ensures workers { IfOk result (λ r. r.1.items ≡ worker_passes rows.entry.items) }
    ensures done { IfOk result (λ r. Each IsDone rows.entry.items) }
{
    let mut clients = Vec::new(alloc);
    let mut workers = Vec::new(alloc);
    while !rows.is_empty() {
        let row = rows.remove(0);
        add_pass(&mut clients, &mut workers, row)?;
    }
    Ok((clients, workers))
}

/// The session of clients that make these offers, each in order, and leave, with so many workers, from 0 to 64: each client and each worker
/// in a thread of its own, as far as threads can be started. What the offers give are values. The log, and how the session ends.
pub fn run_in_threads<R: Threads + Wait + Sync, P: Probe + Sync>(
    rt: &R,
    alloc: Global,
    checked: Checked,
    settings: Settings,
    clients: &[Vec<ClientWish>],
    workers: u32,
    probe: &P,
) -> Result<(Log, End), Memory>
    requires ready { IsReady (program_of checked) }
    requires clients { length clients.now ≤ 64 }
    requires workers { workers ≤ 64 }
    requires gates { Each (Each (λ w. w.offer.gate.0 < length (program_of checked).gates)) (map all_wishes_of clients.now) }
    requires values { Each (Each (λ w. GivesValues (program_of checked).theory w.offer)) (map all_wishes_of clients.now) }
    ensures session { IfOk result (λ r. IsWholeSession (program_of checked) settings (length clients.now) (events_of r.0) (ending_of r.1)) }
    ensures clients { IfOk result (λ r. AnswersClients 1 (map all_wishes_of clients.now) (events_of r.0)) }
    ensures windows { IfOk result (λ r. (w : Windows) × AreSessionWindows (program_of checked) settings w) }
{
    let (session, passes, work_passes) = Session::start(
        alloc,
        checked,
        settings,
        clients.len() as u32,
        workers,
    )?;
    let mut rows = worker_rows(alloc, work_passes)?;
    add_client_rows(&mut rows, passes, clients)?;
    let served = serve_all(rt, alloc, &session, rows, probe)?;
    let (passes, work_passes) = passes_of(alloc, served)?;
    whole_sessions_answer_clients();
    session.close(passes, work_passes)
}
