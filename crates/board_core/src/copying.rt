// Jobs: copies of them, their nodes, and whether two are one.

ghost use Rattle.std.specs.Prelude.{◌≡◌, IfOk};
ghost use Rattle.board_laws.specs.Needed as needed;
ghost use Rattle.candidates.specs.Jobs.{same_job};
ghost use Rattle.candidates.specs.Models.{job_of};

use candidate_verdicts::same::same_rules;
use candidates::job::NodeJob;
use node_trees::origin::Gen;
use spec_core::memory::Memory;
use std::alloc::Global;

/// The same job.
pub fn copy_job(alloc: Global, job: &NodeJob) -> Result<NodeJob, Memory>
    ensures equal { IfOk result (λ other. job_of other ≡ job_of job.now) }
{
    match job {
        NodeJob::Expand(generation) => Ok(NodeJob::Expand(*generation)),
        NodeJob::Judge(generation, rules) => {
            let rules = rules.copy(alloc)?;
            Ok(NodeJob::Judge(*generation, rules))
        }
    }
}

/// The generation of the node at which the job is done. It takes no memory.
pub fn generation_of(job: &NodeJob) -> Gen
    ensures { result.0 ≡ needed.generation_of (job_of job.now) }
{
    match job {
        NodeJob::Expand(generation) => *generation,
        NodeJob::Judge(generation, _) => *generation,
    }
}

/// Whether two jobs are one. It takes no memory.
pub fn is_same(one: &NodeJob, other: &NodeJob) -> bool
    ensures { result ≡ same_job (job_of one.now) (job_of other.now) }
{
    match one {
        NodeJob::Expand(generation) => match other {
            NodeJob::Expand(second) => generation.0 == second.0,
            NodeJob::Judge(_, _) => false,
        },
        NodeJob::Judge(generation, rules) => match other {
            NodeJob::Expand(_) => false,
            NodeJob::Judge(second, others) => {
                generation.0 == second.0 && same_rules(rules, others)
            }
        },
    }
}
