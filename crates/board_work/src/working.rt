// Jobs, done at once.

ghost use Rattle.std.specs.Prelude.{◌≡◌, ◌≤◌, ◌↔◌, IfOk, IsTrue, OnOk};
ghost use Rattle.spec_core.specs.Lists.{Each};
ghost use Rattle.candidates.specs.Models.{job_of};
ghost use Rattle.board_laws.specs.Needed.{generation_of};
ghost use Rattle.node_trees.specs.Origins.{source_of};
ghost use Rattle.board_core.specs.Views.{program, tree, windows};
ghost use Rattle.board_core.specs.Working.{HasOrigin, IsNeeded, IsOfValues, IsVerdict};
ghost use Rattle.board_work.specs.Handed.{HandsIn, IsDone, IsOver};
ghost use Rattle.board_work.specs.Outcomes.{IsOutcome};

use crate::handing_in::hand_in;
use crate::outcome::Outcome;
use crate::performing::perform;
use board_core::board::Board;
use board_core::job::Job;
use candidates::job::NodeJob;
use node_trees::branch::Branch;
use spec_core::memory::Memory;
use std::alloc::Global;

/// How many other jobs are asked for with the next one, at most, to be done where they are of its kind: to expand nodes, or to find what they
/// show. Behind an entry that is none with the first node that is expanded, and one with the second. With the first two jobs to find what
/// nodes show it is one, where the behaviour has several nodes, since many actions are of two of them, and else none. With each further job
/// of the kind it is one more than twice as many, up to 255, and no more nodes than wait, since a search for what isn't there is a long one.
#[derive(Clone, Copy)]
pub struct More {
    verdicts: bool,
    begun: bool,
    pub count: u8,
    after: u8,
}

// How many nodes of a tree wait for their expansion, counted up to so many.
fn waiting_nodes(branch: &Branch, most: u8) -> u8
    ensures few { result ≤ most }
{
    if most == 0 {
        return 0;
    }
    match branch {
        Branch::Leaf(node) => if node.waits() { 1 } else { 0 },
        Branch::Ended => 0,
        Branch::Over(_, part) => waiting_nodes(part, most),
        Branch::Between(_, left, right) => {
            let first = waiting_nodes(left, most);
            first + waiting_nodes(right, most - first)
        }
    }
}

impl More {
    /// Behind an entry.
    pub fn at_first() -> More
        ensures none { result.count ≡ 0 }
    {
        More {
            verdicts: false,
            begun: false,
            count: 0,
            after: 0,
        }
    }

    // With the first job of a kind.
    fn begin(board: &Board, verdicts: bool) -> More {
        if !verdicts {
            return More {
                verdicts,
                begun: false,
                count: 0,
                after: 1,
            };
        }
        let least = if board.has_several_nodes() { 1 } else { 0 };
        More {
            verdicts,
            begun: false,
            count: least,
            after: least,
        }
    }

    /// With the next job of a board: no more nodes than wait beside the first. It takes no memory.
    pub fn with_next(self, board: &Board) -> More {
        let verdicts = board.is_expanded();
        if !self.begun || self.verdicts != verdicts {
            return More::begin(board, verdicts);
        }
        if verdicts {
            return self;
        }
        let others = waiting_nodes(board.nodes(), 255).saturating_sub(1);
        More {
            verdicts,
            begun: true,
            count: if self.count < others {
                self.count
            } else {
                others
            },
            after: self.after,
        }
    }

    /// Whether a job is likely to come before the next entry: behind an entry, where some node waits; behind jobs to expand nodes, always; and
    /// behind those to find what nodes show, never. Nothing is claimed of it: whoever goes by it looks first for what is likelier. It takes no
    /// memory.
    pub fn expects_job(&self, board: &Board) -> bool {
        if self.begun {
            !self.verdicts
        } else {
            !board.is_expanded()
        }
    }

    /// With the job behind this one, if no entry comes before and it is of the same kind.
    pub fn grown(self) -> More
        ensures next { result.count ≡ self.after }
    {
        let after = if self.after < 127 {
            self.after * 2 + 1
        } else {
            255
        };
        More {
            verdicts: self.verdicts,
            begun: true,
            count: self.after,
            after,
        }
    }
}

// What comes of a job of the board.
fn found(alloc: Global, board: &Board, job: &Job) -> Result<Outcome, Memory>
    requires values { IsOfValues (program board.now) job.now }
    ensures outcome { IfOk result (IsOutcome (program board.now) (windows board.now) board.now.settings.budget job.now) }
{
    board.log_is_a_derivation();
    let budget = board.settings().budget;
    perform(alloc, &board.prepared(), board.windows(), job, budget)
}

/// Does a job at once, whose tree of rules, if it has one, chooses values, and hands in what came of it.
pub fn work(alloc: Global, board: &mut Board, job: Job) -> Result<(), Memory>
    requires values { IsOfValues (program board.old) job }
    ensures handed { HandsIn board.old board.new }
    ensures done { OnOk result (HasOrigin (tree board.old) (generation_of (job_of job.task)) (source_of job.origin) →
        IsNeeded board.old (job_of job.task) → IsDone board.old board.new (job_of job.task)) }
{
    let outcome = found(alloc, board, &job)?;
    hand_in(alloc, board, job, outcome)
}

// Whether the job is to find what a node shows.
fn is_verdict(job: &Job) -> bool
    ensures { IsTrue result ↔ IsVerdict (job_of job.now.task) }
{
    match &job.task {
        NodeJob::Expand(_) => false,
        NodeJob::Judge(_, _) => true,
    }
}

// Does a job that wasn't handed out, and hands in what was found. Where it has no answer nothing changes.
#[tactic(auto, using(crate::proofs::Handing::nothing_handed))]
fn try_work(alloc: Global, board: &mut Board, job: Job) -> Result<(), Memory>
    requires values { IsOfValues (program board.old) job }
    ensures handed { HandsIn board.old board.new }
{
    let outcome = found(alloc, board, &job)?;
    if let Outcome::Stopped(_) = &outcome {
        return Ok(());
    }
    hand_in(alloc, board, job, outcome)
}

// Tries those of the jobs that are to find what a node shows, or those that aren't.
fn try_those(alloc: Global, board: &mut Board, verdicts: bool, jobs: Vec<Job>) -> Result<(), Memory>
    requires values { Each (IsOfValues (program board.old)) jobs.items }
    ensures handed { HandsIn board.old board.new }
{
    let mut jobs = jobs;
    while let Some(job) = jobs.pop() {
        if is_verdict(&job) == verdicts {
            try_work(alloc, board, job)?;
        }
    }
    Ok(())
}

/// Does a job at once, whose tree of rules, if it has one, chooses values, and hands in what came of it; and then does those of the others
/// that are of its kind, and hands in what is found, unless the session has stopped: where one of them has no answer nothing changes.
pub fn work_on(alloc: Global, board: &mut Board, job: Job, others: Vec<Job>) -> Result<(), Memory>
    requires values { IsOfValues (program board.old) job }
    requires others { Each (IsOfValues (program board.old)) others.items }
    ensures handed { HandsIn board.old board.new }
    ensures done { OnOk result (HasOrigin (tree board.old) (generation_of (job_of job.task)) (source_of job.origin) →
        IsNeeded board.old (job_of job.task) → IsOver board.new (job_of job.task)) }
{
    let verdicts = is_verdict(&job);
    work(alloc, board, job)?;
    if board.stopped() {
        return Ok(());
    }
    try_those(alloc, board, verdicts, others)
}
