// What comes of a job.

use board_laws::stop_reason::StopReason;
use node_trees::expansion::Expansion;
use symbolic_actions::shown::Shown;

/// What comes of a job.
#[derive(Drop)]
pub enum Outcome {
    /// The expansion of the job's node.
    Expanded(Expansion),
    /// What the job's node shows by the job's tree of rules; None, if it shows nothing by it.
    Judged(Option<Shown>),
    /// The job has no answer, for this reason.
    Stopped(StopReason),
}
