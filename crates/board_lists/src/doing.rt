// Does jobs, so that the trees of a board's behaviour can be listed.

ghost use Rattle.std.specs.Prelude.{◌≡◌, None, OnErr};
ghost use Rattle.spec_core.specs.Lists.{Each};
ghost use Rattle.rule_model.specs.Derivations.{derivation_of};
ghost use Rattle.board_core.specs.Origins.{source_of};
ghost use Rattle.board_core.specs.Shapes.{Held, IsNodeOf};
ghost use Rattle.candidate_verdicts.specs.Known.{node_part};
ghost use Rattle.candidates.specs.Jobs.{to_expand, to_judge};
ghost use Rattle.candidates.specs.Models.{job_of};
ghost use Rattle.board_core.specs.Views.{program, state, tree, windows};
ghost use Rattle.board_work.specs.Outcomes.{ComesOf, IsOutcome};
ghost use Rattle.board_lists.specs.Leaving.{IsNotStoppedBySteps, OnlyLooks};
ghost use Rattle.board_lists.specs.Looking.{GivesReason, IsSound};

use board_core::board::Board;
use board_core::job::Job;
use board_laws::stop_reason::StopReason;
use board_work::outcome::Outcome;
use board_work::performing::perform;
use board_work::{Gen, Origin};
use candidate_verdicts::pieces::Piece;
use candidates::job::NodeJob;
use rule_model::reply::LimitKind;
use rule_model::rules::Rules;
use spec_core::memory::Memory;
use std::alloc::Global;

// What comes of the expansion of a node that stands for this origin.
fn expanded(board: &mut Board, generation: Gen, origin: &Origin, outcome: Outcome)
    requires outcome { ComesOf (program board.old) (windows board.old) board.old.settings.budget (source_of origin.now)
        (to_expand generation.0) outcome }
    requires origin { (n : Held) → IsNodeOf (tree board.old) generation.0 n → n.source ≡ source_of origin.now }
    requires sound { GivesReason (program board.old) board.old.settings (windows board.old) (state board.old) (source_of origin.now)
        (to_expand generation.0) }
    requires running { board.old.stop ≡ None }
    ensures looks { OnlyLooks board.old board.new }
    ensures steps { IsNotStoppedBySteps board.new }
{
    match outcome {
        Outcome::Expanded(work) => {
            board.post(generation, work);
        }
        Outcome::Judged(_) => unreachable!(),
        Outcome::Stopped(reason) => {
            board.fail(&NodeJob::Expand(generation), reason);
        }
    }
}

// What comes of the search for what a node that stands for this origin shows by a tree of rules.
fn judged(
    alloc: Global,
    board: &mut Board,
    generation: Gen,
    rules: Rules,
    origin: &Origin,
    outcome: Outcome,
) -> Result<(), Memory>
    requires outcome { ComesOf (program board.old) (windows board.old) board.old.settings.budget (source_of origin.now)
        (to_judge (node_part generation.0 (derivation_of rules))) outcome }
    requires origin { (n : Held) → IsNodeOf (tree board.old) generation.0 n → n.source ≡ source_of origin.now }
    requires sound { GivesReason (program board.old) board.old.settings (windows board.old) (state board.old) (source_of origin.now)
        (to_judge (node_part generation.0 (derivation_of rules))) }
    requires running { board.old.stop ≡ None }
    ensures looks { OnlyLooks board.old board.new }
    ensures steps { IsNotStoppedBySteps board.new }
    ensures kept { OnErr result (board.new.stop ≡ None) }
{
    match outcome {
        Outcome::Expanded(_) => unreachable!(),
        Outcome::Judged(shown) => {
            let piece = Piece {
                generation,
                rules,
                shown,
            };
            board.judged(alloc, piece)?;
            Ok(())
        }
        Outcome::Stopped(reason) => {
            board.fail(&NodeJob::Judge(generation, rules), reason);
            Ok(())
        }
    }
}

// Takes in what came of a job, if its node still stands for the job's origin.
fn take_in(alloc: Global, board: &mut Board, job: &Job, outcome: Outcome) -> Result<(), Memory>
    requires outcome { IsOutcome (program board.old) (windows board.old) board.old.settings.budget job.now outcome }
    requires sound { GivesReason (program board.old) board.old.settings (windows board.old) (state board.old) (source_of job.now.origin)
        (job_of job.now.task) }
    requires running { board.old.stop ≡ None }
    ensures looks { OnlyLooks board.old board.new }
    ensures steps { IsNotStoppedBySteps board.new }
    ensures kept { OnErr result (board.new.stop ≡ None) }
{
    match &job.task {
        NodeJob::Expand(generation) => {
            if !board.has_origin(*generation, &job.origin) {
                return Ok(());
            }
            expanded(board, *generation, &job.origin, outcome);
            Ok(())
        }
        NodeJob::Judge(generation, rules) => {
            if !board.has_origin(*generation, &job.origin) {
                return Ok(());
            }
            let rules = rules.copy(alloc)?;
            judged(alloc, board, *generation, rules, &job.origin, outcome)
        }
    }
}

// Whether what the job is to find is known: another job has found what the node shows by the same tree of rules.
fn is_known(board: &Board, task: &NodeJob) -> bool {
    match task {
        NodeJob::Expand(_) => false,
        NodeJob::Judge(generation, rules) => board.pieces().find(*generation, rules).is_some(),
    }
}

// Does a job.
fn do_job(alloc: Global, board: &mut Board, job: &Job) -> Result<(), Memory>
    requires sound { IsSound board.old job.now }
    requires running { board.old.stop ≡ None }
    ensures looks { OnlyLooks board.old board.new }
    ensures steps { IsNotStoppedBySteps board.new }
    ensures kept { OnErr result (board.new.stop ≡ None) }
{
    if is_known(board, &job.task) {
        return Ok(());
    }
    if board.is_too_much(alloc, &job.task)? {
        board.jobs_give_reasons();
        board.fail(&job.task, StopReason::Limit(LimitKind::Offers));
        return Ok(());
    }
    board.log_is_a_derivation();
    let budget = board.settings().budget;
    let outcome = perform(alloc, &board.prepared(), board.windows(), job, budget)?;
    take_in(alloc, board, job, outcome)
}

/// Does these jobs in order, until a reason stops the session.
pub fn do_jobs(alloc: Global, board: &mut Board, jobs: &[Job]) -> Result<(), Memory>
    requires sound { Each (IsSound board.old) jobs.now }
    requires running { board.old.stop ≡ None }
    ensures looks { OnlyLooks board.old board.new }
    ensures steps { IsNotStoppedBySteps board.new }
    ensures kept { OnErr result (board.new.stop ≡ None) }
{
    for job in jobs {
        do_job(alloc, board, job)?;
        if board.stopped() {
            return Ok(());
        }
    }
    Ok(())
}
