// Jobs, done without the board.

ghost use Rattle.std.specs.Prelude.{ℕ, ◌≡◌, IfOk, Some};
ghost use Rattle.board_laws.specs.declared.stop_reason.StopReason.{StopReason};
ghost use Rattle.spec_core.specs.Ready.{IsReady};
ghost use Rattle.board_core.specs.Found.{AreBySorts};
ghost use Rattle.board_core.specs.Working.{IsOfValues};
ghost use Rattle.board_laws.specs.Given.{reason_of};
ghost use Rattle.candidate_verdicts.specs.Tables.{windows_in};
ghost use Rattle.candidates.specs.Jobs.{to_expand, to_judge};
ghost use Rattle.candidate_verdicts.specs.Known.{node_part};
ghost use Rattle.rule_model.specs.Derivations.{derivation_of};
ghost use Rattle.node_trees.specs.Origins.{source_of};
ghost use Rattle.node_values.specs.Prepared.{program_in};
ghost use Rattle.node_verdict.specs.Choosing.{ChoosesValues};
ghost use Rattle.board_work.specs.declared.outcome.Outcome.TheVariants.{Stopped};
ghost use Rattle.board_work.specs.Outcomes.{ComesOf, IsOutcome};

use crate::outcome::Outcome;
use board_core::job::Job;
use board_laws::reasons::reason_for;
use candidates::job::NodeJob;
use node_trees::origin::Origin;
use node_values::Prepared;
use node_values::stop::Stop;
use node_verdict::origins::shown_by;
use node_work::node::expand_node;
use rule_model::rules::Rules;
use spec_core::memory::Memory;
use spec_core::window::Window;
use std::alloc::Global;

// There is no answer, unless there was only want of memory.
fn unanswered(stop: Stop) -> Result<Outcome, Memory>
    ensures { IfOk result (λ outcome. (reason : StopReason) × (reason_of stop ≡ Some reason) × (outcome ≡ Stopped reason)) }
{
    match reason_for(stop) {
        None => Err(Memory),
        Some(reason) => Ok(Outcome::Stopped(reason)),
    }
}

// A node is expanded.
fn expand(
    alloc: Global,
    prepared: &Prepared,
    windows: &[Window],
    origin: &Origin,
    budget: u64,
) -> Result<Outcome, Memory>
    requires ready { IsReady (program_in prepared.now) }
    requires rows { (k : ℕ) × AreBySorts (program_in prepared.now).theory k windows.now }
    ensures { IfOk result (λ outcome. (g : ℕ) → ComesOf (program_in prepared.now) (windows_in windows.now) budget (source_of origin.now)
        (to_expand g) outcome) }
{
    match expand_node(alloc, prepared, windows, origin, budget) {
        Ok(work) => Ok(Outcome::Expanded(work)),
        Err(stop) => unanswered(stop),
    }
}

// It is found what a node shows by a tree of rules.
fn judge(
    alloc: Global,
    prepared: &Prepared,
    windows: &[Window],
    origin: &Origin,
    rules: &Rules,
    budget: u64,
) -> Result<Outcome, Memory>
    requires ready { IsReady (program_in prepared.now) }
    requires values { ChoosesValues (program_in prepared.now).theory (derivation_of rules.now) }
    ensures { IfOk result (λ outcome. (g : ℕ) → ComesOf (program_in prepared.now) (windows_in windows.now) budget (source_of origin.now)
        (to_judge (node_part g (derivation_of rules.now))) outcome) }
{
    match shown_by(alloc, prepared, windows, origin, rules, budget) {
        Ok(shown) => Ok(Outcome::Judged(shown)),
        Err(stop) => unanswered(stop),
    }
}

/// Does a job, without the board from which it was taken: over a specification that is ready and the first values of its sorts, with at most
/// `budget` uses of equations for each value. The job's tree of rules, if it has one, chooses values. It takes no lock. It recurs as deep as
/// constructs, calls, terms and trees of rules nest.
pub fn perform(
    alloc: Global,
    prepared: &Prepared,
    windows: &[Window],
    job: &Job,
    budget: u64,
) -> Result<Outcome, Memory>
    requires ready { IsReady (program_in prepared.now) }
    requires rows { (k : ℕ) × AreBySorts (program_in prepared.now).theory k windows.now }
    requires values { IsOfValues (program_in prepared.now) job.now }
    ensures outcome { IfOk result (IsOutcome (program_in prepared.now) (windows_in windows.now) budget job.now) }
{
    match &job.task {
        NodeJob::Expand(_) => expand(alloc, prepared, windows, &job.origin, budget),
        NodeJob::Judge(_, rules) => judge(alloc, prepared, windows, &job.origin, rules, budget),
    }
}
