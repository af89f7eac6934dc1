// Steps of a session by the calls of its board, each with what is due.

use crate::late::all_is_stale;
use crate::ready::{commit_next, reserve_next};
use crate::telling::{offer_at, told};
use crate::working::{do_job, expanded_by, work_and_settle};
use board_core::board::Board;
use board_core::job::Job;
use board_record::{LeaveFault, PendFault};
use board_work::Gen;
use board_work::working::work;
use candidates::job::NodeJob;
use spec_core::memory::Memory;
use std::alloc::Global;

/// What is done with a board, or asked of it, and what is due.
#[derive(Clone, Copy)]
pub enum Step {
    /// A client offers at the gate with a number: how many offers it has made then, or why this one isn't made.
    Offers(u32, u32, Result<u64, PendFault>),
    /// The same, by an ask.
    Asks(u32, u32, Result<u64, PendFault>),
    /// A client leaves, or why it doesn't.
    Leaves(u32, Result<(), LeaveFault>),
    /// The next entry is settled: its number.
    Settles(Option<u64>),
    /// The same, once the jobs are done that this needs.
    WorksAndSettles(Option<u64>),
    /// A job is taken and kept, which expands the node of this generation.
    TakesJob(u128),
    /// Another such job is taken and kept, while the one that was kept is out; then that one is done.
    TakesAnother(u128),
    /// No job is free.
    NoJobIsFree,
    /// The job that is kept is given back.
    GivesBack,
    /// All jobs that are out are given back.
    GivesAllBack,
    /// A job is taken and done.
    DoesJob,
    /// Whether an offer is taken next, for which all is made ready.
    MakesReady(bool),
    /// Whether an offer is taken next, which is done.
    Commits(bool),
    /// How a client's offer with a number was answered: the number of actions before, and the word.
    Answered(u32, u64, u64, &'static str),
    /// How many entries there are, how many offers wait, how many actions were done, and how many clients are open. Nothing has stopped the
    /// session.
    Counts(usize, usize, u64, usize),
    /// Whether the first node is there.
    FirstNodeLives(bool),
    /// The node of the job that is kept is gone, and what is handed in for it is stale.
    AllIsStale,
}

// Whether an offer is made, or refused, as is due.
fn offers(
    alloc: Global,
    board: &mut Board,
    client: u32,
    gate: u32,
    asks: bool,
    due: Result<u64, PendFault>,
) -> bool {
    board.pend(alloc, client, &offer_at(alloc, gate), asks) == due
}

// Takes a job and keeps it; whether it expands this node.
fn takes_job(
    alloc: Global,
    board: &mut Board,
    kept: &mut Option<Job>,
    node: u128,
) -> Result<bool, Memory> {
    let Some(job) = board.take_job(alloc)? else {
        return Ok(false);
    };
    let expanded = expanded_by(&job.task);
    *kept = Some(job);
    Ok(expanded == Some(node))
}

// Does a job, where it expands a node; whether it does.
fn does_expansion(alloc: Global, board: &mut Board, job: Job) -> Result<bool, Memory> {
    let Job { task, origin } = job;
    match task {
        NodeJob::Expand(generation) => {
            let task = NodeJob::Expand(generation);
            work(alloc, board, Job { task, origin })?;
            Ok(true)
        }
        NodeJob::Judge(_, _) => Ok(false),
    }
}

// Takes another job and keeps it in the place of one that was kept, which is done then; whether it expands this node.
fn takes_another(
    alloc: Global,
    board: &mut Board,
    kept: &mut Option<Job>,
    node: u128,
) -> Result<bool, Memory> {
    let Some(before) = kept.take() else {
        return Ok(false);
    };
    let expands = takes_job(alloc, board, kept, node)?;
    Ok(does_expansion(alloc, board, before)? && expands)
}

fn counts(board: &Board, entries: usize, pending: usize, actions: u64, open: usize) -> bool {
    !board.stopped()
        && board.log().len() == entries
        && board.state().pending().len() == pending
        && board.state().actions() == actions
        && board.open_clients() == open
}

// Does a step with the job that is kept.
fn holds_with_job(
    alloc: Global,
    board: &mut Board,
    kept: &Option<Job>,
    step: Step,
) -> Result<bool, Memory> {
    let Some(job) = kept else {
        return Ok(false);
    };
    match step {
        Step::GivesBack => {
            board.give_back(&job.task);
            Ok(true)
        }
        _ => all_is_stale(alloc, board, job),
    }
}

/// Does a step; whether it comes out as is due.
pub fn holds(
    alloc: Global,
    board: &mut Board,
    kept: &mut Option<Job>,
    step: Step,
) -> Result<bool, Memory> {
    match step {
        Step::Offers(client, gate, due) => Ok(offers(alloc, board, client, gate, false, due)),
        Step::Asks(client, gate, due) => Ok(offers(alloc, board, client, gate, true, due)),
        Step::Leaves(client, due) => Ok(board.leave(alloc, client) == due),
        Step::Settles(due) => Ok(board.settle(alloc)? == due),
        Step::WorksAndSettles(due) => Ok(work_and_settle(alloc, board)? == due),
        Step::TakesJob(node) => takes_job(alloc, board, kept, node),
        Step::TakesAnother(node) => takes_another(alloc, board, kept, node),
        Step::NoJobIsFree => Ok(board.take_job(alloc)?.is_none()),
        Step::GivesBack | Step::AllIsStale => holds_with_job(alloc, board, kept, step),
        Step::GivesAllBack => {
            board.give_back_all();
            Ok(true)
        }
        Step::DoesJob => do_job(alloc, board),
        Step::MakesReady(due) => Ok(reserve_next(alloc, board)? == due),
        Step::Commits(due) => Ok(commit_next(alloc, board)? == due),
        Step::Answered(client, number, actions, word) => {
            Ok(told(alloc, board, client, number)? == (actions, word))
        }
        Step::Counts(entries, pending, actions, open) => {
            Ok(counts(board, entries, pending, actions, open))
        }
        Step::FirstNodeLives(due) => Ok(board.lives(Gen(0)) == due),
    }
}
