// What comes of jobs, handed in.

ghost use Rattle.std.specs.Prelude.{◌≡◌, OnErr, OnOk, Some, map};
ghost use Rattle.rule_model.specs.Derivations.{derivation_of};
ghost use Rattle.candidates.specs.Jobs.{to_expand, to_judge};
ghost use Rattle.candidates.specs.Models.{job_of};
ghost use Rattle.candidate_verdicts.specs.Known.{node_part};
ghost use Rattle.board_laws.specs.Reasons.{IsAskedByRules, IsReasonToStop};
ghost use Rattle.node_trees.specs.Origins.{source_of};
ghost use Rattle.node_trees.specs.Shapes.{Held, IsNodeOf};
ghost use Rattle.node_trees.specs.Rests.{expansion_of};
ghost use Rattle.board_core.specs.Boards.{IsWorkAt};
ghost use Rattle.board_core.specs.Views.{program, state, tree, windows, SameNodes};
ghost use Rattle.board_core.specs.Working.{IsNeeded, left_out};
ghost use Rattle.board_work.specs.Handed.{ChangesNothing, HandsIn, IsAsBefore, IsExpanded, IsInTime, IsStopped, IsTakenIn};
ghost use Rattle.board_work.specs.Outcomes.{ComesOf, IsOutcome};

use crate::outcome::Outcome;
use board_core::board::Board;
use board_core::job::{Job, Post};
use board_laws::stop_reason::StopReason;
use candidate_verdicts::pieces::Piece;
use candidates::job::NodeJob;
use node_trees::expansion::Expansion;
use node_trees::origin::{Gen, Origin};
use rule_model::rules::Rules;
use spec_core::memory::Memory;
use std::alloc::Global;

// The expansion of a node that stands for the origin of which it was made.
fn post_work(board: &mut Board, generation: Gen, origin: &Origin, work: Expansion)
    requires origin { (n : Held) → IsNodeOf (tree board.old) generation.0 n → n.source ≡ source_of origin.now }
    requires work { IsWorkAt (program board.old) (windows board.old) (source_of origin.now) (expansion_of work) }
    ensures handed { HandsIn board.old board.new }
    ensures taken { IsInTime (tree board.old) (source_of origin.now) (to_expand generation.0) →
        IsExpanded board.old board.new generation.0 (expansion_of work) }
    ensures late { (IsInTime (tree board.old) (source_of origin.now) (to_expand generation.0) → ⊥) → ChangesNothing board.old board.new }
    ensures out { map job_of board.new.out ≡ left_out (to_expand generation.0) (map job_of board.old.out) }
{
    match board.post(generation, work) {
        Post::Posted => {}
        Post::Stale => board.give_back(&NodeJob::Expand(generation)),
    }
}

// A job has no answer, for this reason, which stops the session where the rules still need the job.
fn give_reason(
    alloc: Global,
    board: &mut Board,
    task: &NodeJob,
    reason: StopReason,
) -> Result<(), Memory>
    requires reason { IsNeeded board.old (job_of task.now) →
        IsReasonToStop (program board.old) board.old.settings (state board.old) reason ×
        IsAskedByRules (program board.old) board.old.settings (state board.old) reason }
    ensures handed { HandsIn board.old board.new }
    ensures taken { OnOk result (IsStopped board.old board.new (job_of task.now) reason) }
    ensures late { (IsNeeded board.old (job_of task.now) → ⊥) → ChangesNothing board.old board.new }
    ensures out { OnOk result (map job_of board.new.out ≡ left_out (job_of task.now) (map job_of board.old.out)) }
    ensures kept { OnErr result (IsAsBefore board.old board.new) }
{
    if !board.is_needed(alloc, task)? {
        board.give_back(task);
        return Ok(());
    }
    board.fail(task, reason);
    Ok(())
}

// What comes of the expansion of a node.
fn expanded(
    alloc: Global,
    board: &mut Board,
    generation: Gen,
    origin: &Origin,
    outcome: Outcome,
) -> Result<(), Memory>
    requires outcome { ComesOf (program board.old) (windows board.old) board.old.settings.budget (source_of origin.now)
        (to_expand generation.0) outcome }
    ensures handed { HandsIn board.old board.new }
    ensures taken { OnOk result (IsInTime (tree board.old) (source_of origin.now) (to_expand generation.0) →
        IsTakenIn board.old board.new (to_expand generation.0) outcome) }
    ensures late { (IsInTime (tree board.old) (source_of origin.now) (to_expand generation.0) → ⊥) → ChangesNothing board.old board.new }
    ensures out { OnOk result (map job_of board.new.out ≡ left_out (to_expand generation.0) (map job_of board.old.out)) }
    ensures kept { OnErr result (IsAsBefore board.old board.new) }
{
    if !board.has_origin(generation, origin) {
        board.give_back(&NodeJob::Expand(generation));
        return Ok(());
    }
    match outcome {
        Outcome::Expanded(work) => {
            post_work(board, generation, origin, work);
            Ok(())
        }
        Outcome::Judged(_) => unreachable!(),
        Outcome::Stopped(reason) => {
            board.jobs_give_reasons();
            give_reason(alloc, board, &NodeJob::Expand(generation), reason)
        }
    }
}

// What comes of the search for what a node shows by a tree of rules.
fn judged(
    alloc: Global,
    board: &mut Board,
    generation: Gen,
    rules: Rules,
    origin: &Origin,
    outcome: Outcome,
) -> Result<(), Memory>
    requires outcome { ComesOf (program board.old) (windows board.old) board.old.settings.budget (source_of origin.now)
        (to_judge (node_part generation.0 (derivation_of rules))) outcome }
    ensures handed { HandsIn board.old board.new }
    ensures taken { OnOk result (IsInTime (tree board.old) (source_of origin.now) (to_judge (node_part generation.0 (derivation_of rules))) →
        IsTakenIn board.old board.new (to_judge (node_part generation.0 (derivation_of rules))) outcome) }
    ensures late { (IsInTime (tree board.old) (source_of origin.now) (to_judge (node_part generation.0 (derivation_of rules))) → ⊥) →
        ChangesNothing board.old board.new }
    ensures out { OnOk result (map job_of board.new.out ≡
        left_out (to_judge (node_part generation.0 (derivation_of rules))) (map job_of board.old.out)) }
    ensures kept { OnErr result (IsAsBefore board.old board.new) }
{
    if !board.has_origin(generation, origin) {
        board.give_back(&NodeJob::Judge(generation, rules));
        return Ok(());
    }
    match outcome {
        Outcome::Expanded(_) => unreachable!(),
        Outcome::Judged(shown) => {
            board.judged(
                alloc,
                Piece {
                    generation,
                    rules,
                    shown,
                },
            )?;
            Ok(())
        }
        Outcome::Stopped(reason) => {
            board.jobs_give_reasons();
            give_reason(alloc, board, &NodeJob::Judge(generation, rules), reason)
        }
    }
}

/// Hands in what came of a job that was done without the board, however late. What a node can do, or shows, is known from then on, and a reason
/// why the job has no answer stops the session, if the rules still need the job. Where the job's node doesn't live with the job's origin any
/// more, or is expanded already, nothing changes but that the job is no longer out.
pub fn hand_in(alloc: Global, board: &mut Board, job: Job, outcome: Outcome) -> Result<(), Memory>
    requires outcome { IsOutcome (program board.old) (windows board.old) board.old.settings.budget job outcome }
    ensures handed { HandsIn board.old board.new }
    ensures taken { OnOk result (IsInTime (tree board.old) (source_of job.origin) (job_of job.task) →
        IsTakenIn board.old board.new (job_of job.task) outcome) }
    ensures late { (IsInTime (tree board.old) (source_of job.origin) (job_of job.task) → ⊥) → ChangesNothing board.old board.new }
    ensures out { OnOk result (map job_of board.new.out ≡ left_out (job_of job.task) (map job_of board.old.out)) }
    ensures kept { OnErr result (IsAsBefore board.old board.new) }
{
    let Job { task, origin } = job;
    match task {
        NodeJob::Expand(generation) => expanded(alloc, board, generation, &origin, outcome),
        NodeJob::Judge(generation, rules) => {
            judged(alloc, board, generation, rules, &origin, outcome)
        }
    }
}
