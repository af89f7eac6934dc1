// A thread for each row, with a large stack.

ghost use Rattle.std.specs.Prelude.{◌≡◌, Bool, IfErr, IfOk, List, OnOk};
ghost use Rattle.spec_core.specs.Lists.{Each};
ghost use Rattle.session.specs.Passes.{PassView};
ghost use Rattle.session.specs.Sessions.{IsWorkerOf, SessionView, who_of};
ghost use Rattle.session_threads.specs.Rows.{AreServed, IsReadyClient, IsReadyRow, IsServed, IsServedClient, IsServedWorker, SameRow};
ghost use Rattle.session_threads.specs.Started.{AreStarted, IsFit, IsHereDone, IsStarted, StaysStarted};
ghost use Rattle.session_threads.specs.declared.rows.Row.{Row};
ghost use Rattle.session_threads.specs.declared.rows.Row.TheVariants.{Client, Worker};

use crate::places::Refusals;
use crate::rows::{Row, ServedClient, ServedWorker};
use crate::serving::{served_client, served_worker};
use crate::stepping::{Round, Stepped, step};
use core::thread::Stack;
use rule_model::wish::ClientWish;
use session::pass::Pass;
use session::session::Session;
use session::work_pass::WorkPass;
use spec_core::memory::Memory;
use std::alloc::Global;
use std::snapshot::Snapshot;
use std::sync::Wait;
use std::thread;
use std::thread::{Promise, PromisedHandle, Scope, SpawnError, Threads};
use worker_drive::Probe;

// The stack of the thread of a client or a worker, in bytes. What isn't used takes addresses and no memory.
const STACK: usize = 0x2000_0000;

/// The thread of a client promises that the client is served.
#[derive(Drop)]
pub struct ClientPromise<'w> {
    pub pass: Snapshot<Pass>,
    pub wishes: &'w [ClientWish],
}

impl<'w> Promise<ServedClient> for ClientPromise<'w> {
    ghost use Rattle.session_threads.specs.Rows.{IsServedClient};

    ghost kept_by = { λ promise served. IsServedClient promise.pass.value promise.wishes.now served };
}

fn client_promise<'w>(pass: &Pass, wishes: &'w [ClientWish]) -> ClientPromise<'w>
    ensures pass { result.pass.value ≡ pass.now }
    ensures wishes { result.wishes.now ≡ wishes.now }
{
    ClientPromise {
        pass: Snapshot::of(pass),
        wishes,
    }
}

/// That of a worker promises that it is the same worker.
#[derive(Drop)]
pub struct WorkerPromise {
    pub pass: Snapshot<WorkPass>,
}

impl Promise<ServedWorker> for WorkerPromise {
    ghost use Rattle.session_threads.specs.Rows.{IsServedWorker};

    ghost kept_by = { λ promise served. IsServedWorker promise.pass.value served };
}

fn worker_promise(pass: &WorkPass) -> WorkerPromise
    ensures pass { result.pass.value ≡ pass.now }
{
    WorkerPromise {
        pass: Snapshot::of(pass),
    }
}

// Starts a thread with a large stack, or where none can be started, one with the stack that the C library gives. Its promise is handed in
// twice, once for each.
fn start<'s, E, P: Promise<T> + Drop, F: FnOnce() -> T + Send + 's, T: Send + Drop + 's>(
    scope: &Scope<'s, E>,
    promise: P,
    again: P,
    job: F,
) -> Result<PromisedHandle<T, P>, SpawnError<F>>
    requires runs { F.pre job }
    requires keeps { (r : T) → F.post job r → P.kept_by promise r × P.kept_by again r }
    requires same { (r : T) → P.kept_by again r → P.kept_by promise r }
    ensures started { IfOk result (λ h. (r : T) → P.kept_by h.promise r → P.kept_by promise r) }
    ensures refused { IfErr result (λ e. e.value ≡ job) }
{
    match Stack::new()
        .stack_size(STACK)
        .spawn_scoped_with(scope, promise, job)
    {
        Ok(thread) => Ok(thread),
        Err(refused) => scope.spawn_with(again, refused.value),
    }
}

/// A row whose thread has been started, or that is served here.
#[derive(Drop)]
pub enum Started<'w> {
    ClientThread {
        thread: PromisedHandle<ServedClient, ClientPromise<'w>>,
        wishes: &'w [ClientWish],
    },
    WorkerThread {
        thread: PromisedHandle<ServedWorker, WorkerPromise>,
    },
    Here(Stepped<'w>),
}

// A client whose thread couldn't be started is to be served here. Had it been begun with all the same, it would be done with.
fn client_here<'w>(served: ServedClient, wishes: &'w [ClientWish]) -> Started<'w>
    ensures here { (s : SessionView) (pass : PassView) (was_done : Bool) → IsReadyClient s pass wishes.now →
        IsServedClient pass wishes.now served → IsStarted (Client pass wishes.entry was_done) result × IsFit s result }
{
    let ServedClient {
        pass,
        is_begun,
        is_done,
    } = served;
    if is_begun {
        return Started::Here(Stepped::Over(Row::Client {
            pass,
            wishes,
            is_done,
        }));
    }
    Started::Here(Stepped::Resting {
        pass,
        wishes,
        left: wishes,
    })
}

// The client, in a thread of its own. Where its thread can't be started, it is to be served here.
fn start_client<'s, 'e: 's, 'w: 's, R: Threads + Wait + Sync>(
    scope: &Scope<'s, &'e ()>,
    rt: &'s R,
    session: &'s Session,
    pass: Pass,
    wishes: &'w [ClientWish],
    refusals: &'s Refusals,
    number: u64,
) -> Started<'w>
    requires client { IsReadyClient session.now pass wishes.now }
    ensures started { (was_done : Bool) → IsStarted (Client pass wishes.entry was_done) result }
    ensures fit { IsFit session.now result }
{
    let promise = client_promise(&pass, wishes);
    let again = client_promise(&pass, wishes);
    let job = move || -> ServedClient
        requires { IsReadyClient session.now pass wishes.now }
        ensures { IsServedClient pass wishes.entry.now result }
    { served_client(rt, session, pass, wishes, refusals, number) };
    match start(scope, promise, again, job) {
        Ok(thread) => Started::ClientThread { thread, wishes },
        Err(refused) => {
            refusals.refuse(number);
            client_here((refused.value)(), wishes)
        }
    }
}

// The worker, likewise.
fn start_worker<'s, 'e: 's, 'w: 's, R: Threads + Wait + Sync, P: Probe + Sync>(
    scope: &Scope<'s, &'e ()>,
    rt: &'s R,
    session: &'s Session,
    pass: WorkPass,
    probe: &'s P,
    refusals: &'s Refusals,
    number: u64,
) -> Started<'w>
    requires ours { IsWorkerOf session.now (who_of pass) }
    ensures started { (was_done : Bool) → IsStarted (Worker pass was_done) result }
    ensures fit { IsFit session.now result }
{
    let promise = worker_promise(&pass);
    let again = worker_promise(&pass);
    let job = move || -> ServedWorker
        requires { IsWorkerOf session.now (who_of pass) }
        ensures { IsServedWorker pass result }
    { served_worker(rt, session, pass, probe, refusals, number) };
    match start(scope, promise, again, job) {
        Ok(thread) => Started::WorkerThread { thread },
        Err(refused) => {
            refusals.refuse(number);
            let ServedWorker {
                pass,
                is_begun: _,
                is_done: _,
            } = (refused.value)();
            Started::Here(Stepped::Working { pass })
        }
    }
}

// The row, in a thread of its own. Where its thread can't be started, it is to be served here.
fn start_row<'s, 'e: 's, 'w: 's, R: Threads + Wait + Sync, P: Probe + Sync>(
    scope: &Scope<'s, &'e ()>,
    rt: &'s R,
    session: &'s Session,
    row: Row<'w>,
    probe: &'s P,
    refusals: &'s Refusals,
    number: u64,
) -> Started<'w>
    requires ready { IsReadyRow session.now row }
    ensures started { IsStarted row.entry result }
    ensures fit { IsFit session.now result }
{
    match row {
        Row::Client { pass, wishes, .. } => {
            start_client(scope, rt, session, pass, wishes, refusals, number)
        }
        Row::Worker { pass, .. } => start_worker(scope, rt, session, pass, probe, refusals, number),
    }
}

// The rows, each in a thread of its own, as far as threads can be started.
fn start_rows<'s, 'e: 's, 'w: 's, R: Threads + Wait + Sync, P: Probe + Sync>(
    scope: &Scope<'s, &'e ()>,
    rt: &'s R,
    alloc: Global,
    session: &'s Session,
    mut rows: Vec<Row<'w>>,
    probe: &'s P,
    refusals: &'s Refusals,
) -> Result<Vec<Started<'w>>, Memory>
    requires ready { Each (IsReadyRow session.now) rows.items }
    ensures started { IfOk result (λ all. AreStarted rows.entry.items all.items) }
    ensures fit { IfOk result (λ all. Each (IsFit session.now) all.items) }
{
    let mut all = Vec::new(alloc);
    all.reserve(rows.len())?;
    while !rows.is_empty() {
        let row = rows.remove(0);
        let number = all.len() as u64 + 1;
        all.push(start_row(scope, rt, session, row, probe, refusals, number))?;
    }
    Ok(all)
}

// One turn of a row that is served here.
fn step_one<'w, R: Wait, P: Probe>(
    rt: &R,
    session: &Session,
    started: Started<'w>,
    probe: &P,
) -> Result<(Started<'w>, Round), Memory>
    requires fit { IsFit session.now started }
    ensures started { IfOk result (λ r. (row : Row) → IsStarted row started.entry → IsStarted row r.0) }
    ensures fit { IfOk result (λ r. IsFit session.now r.0) }
    ensures over { IfOk result (λ r. r.1 ≡ Round.Over → IsHereDone r.0) }
{
    match started {
        Started::Here(state) => {
            let (state, round) = step(rt, session, state, probe)?;
            Ok((Started::Here(state), round))
        }
        Started::ClientThread { thread, wishes } => {
            Ok((Started::ClientThread { thread, wishes }, Round::Over))
        }
        Started::WorkerThread { thread } => Ok((Started::WorkerThread { thread }, Round::Over)),
    }
}

// One turn of each row that is served here.
fn step_all<'w, R: Wait, P: Probe>(
    rt: &R,
    session: &Session,
    started: &mut Vec<Started<'w>>,
    probe: &P,
) -> Result<Round, Memory>
    requires fit { Each (IsFit session.now) started.old.items }
    ensures started { OnOk result (StaysStarted started.old.items started.new.items) }
    ensures fit { OnOk result (Each (IsFit session.now) started.new.items) }
    ensures over { IfOk result (λ round. round ≡ Round.Over → Each IsHereDone started.new.items) }
{
    match started.pop() {
        None => Ok(Round::Over),
        Some(last) => {
            let others = step_all(rt, session, started, probe)?;
            let (last, round) = step_one(rt, session, last, probe)?;
            started.push(last)?;
            Ok(others.and(round))
        }
    }
}

// The rows that are served here, turn by turn, until each has done all that it was to do.
fn serve_here<'w, R: Wait, P: Probe>(
    rt: &R,
    session: &Session,
    started: &mut Vec<Started<'w>>,
    probe: &P,
) -> Result<(), Memory>
    requires fit { Each (IsFit session.now) started.old.items }
    ensures started { OnOk result (StaysStarted started.old.items started.new.items) }
    ensures over { OnOk result (Each IsHereDone started.new.items) }
{
    for _ in rt.forever() {
        match step_all(rt, session, started, probe)? {
            Round::Busy => {}
            Round::Idle => thread::yield_now(),
            Round::Over => return Ok(()),
        }
    }
    unreachable!()
}

// The row once its thread has ended.
fn joined<'w, R: Threads + Wait>(rt: &R, started: Started<'w>) -> Row<'w>
    requires over { IsHereDone started }
    ensures served { (row : Row) → IsStarted row started.entry → SameRow row result × IsServed result }
{
    match started {
        Started::ClientThread { thread, wishes } => {
            let ServedClient {
                pass,
                is_begun: _,
                is_done,
            } = thread.join(rt);
            Row::Client {
                pass,
                wishes,
                is_done,
            }
        }
        Started::WorkerThread { thread } => {
            let ServedWorker {
                pass,
                is_begun: _,
                is_done,
            } = thread.join(rt);
            Row::Worker { pass, is_done }
        }
        Started::Here(state) => state.row(),
    }
}

// The rows once their threads have ended.
#[tactic(auto, using(crate::proofs::Spawning::last_joined, crate::proofs::Spawning::none_joined))]
fn all_joined<'w, R: Threads + Wait>(
    rt: &R,
    alloc: Global,
    mut started: Vec<Started<'w>>,
) -> Result<Vec<Row<'w>>, Memory>
    requires over { Each IsHereDone started.items }
    ensures served { IfOk result (λ news. (rows : List Row) → AreStarted rows started.entry.items → AreServed rows news.items) }
{
    match started.pop() {
        None => Ok(Vec::new(alloc)),
        Some(last) => {
            let others = all_joined(rt, alloc, started);
            let row = joined(rt, last);
            let mut all = others?;
            all.push(row)?;
            Ok(all)
        }
    }
}

/// The rows once each has been served in a thread of its own, as far as threads can be started; the others are served here, by turns.
pub fn serve_rows<'s, 'e: 's, 'w: 's, R: Threads + Wait + Sync, P: Probe + Sync>(
    scope: &Scope<'s, &'e ()>,
    rt: &'s R,
    alloc: Global,
    session: &'s Session,
    rows: Vec<Row<'w>>,
    probe: &'s P,
    refusals: &'s Refusals,
) -> Result<Vec<Row<'w>>, Memory>
    requires ready { Each (IsReadyRow session.now) rows.items }
    ensures served { IfOk result (λ news. AreServed rows.entry.items news.items) }
{
    let mut started = start_rows(scope, rt, alloc, session, rows, probe, refusals)?;
    serve_here(rt, session, &mut started, probe)?;
    all_joined(rt, alloc, started)
}
