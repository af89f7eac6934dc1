// What is to be done at nodes.

ghost use Rattle.std.specs.Prelude.{◌≡◌, [], OnOk, length, map, nat_lt};
ghost use Rattle.rule_model.specs.Derivations.{derivation_of};
ghost use Rattle.decision_trees.specs.Known.{unless_known};
ghost use Rattle.decision_order.specs.Jobs.{taken_on};
ghost use Rattle.node_trees.specs.Shapes.{shape_of};
ghost use Rattle.candidate_verdicts.specs.Known.{missing_parts, node_part};
ghost use Rattle.candidate_verdicts.specs.Stored.{stored};
ghost use Rattle.candidates.specs.Jobs.{to_expand, to_judge, same_job, is_out, with_job};
ghost use Rattle.candidates.specs.Models.{job_of};

use candidate_verdicts::pieces::Pieces;
use candidate_verdicts::rule::{Sides, part_under, sides_under};
use candidate_verdicts::same::same_rules;
use node_trees::branch::Branch;
use node_trees::origin::Gen;
use rule_model::rules::Rules;
use spec_core::memory::Memory;
use std::alloc::Global;

/// What is to be done at the node of a generation.
#[derive(Drop)]
pub enum NodeJob {
    /// It is to be expanded.
    Expand(Gen),
    /// It is to be found out what it shows by a tree of rules.
    Judge(Gen, Rules),
}

// Whether the job is to expand the node of this generation.
fn is_to_expand(job: &NodeJob, generation: Gen) -> bool
    ensures { result ≡ same_job (job_of job.now) (to_expand generation.0) }
{
    match job {
        NodeJob::Expand(other) => other.0 == generation.0,
        NodeJob::Judge(_, _) => false,
    }
}

// Whether the job is to judge this tree of rules at the node of this generation.
fn is_to_judge(job: &NodeJob, generation: Gen, rules: &Rules) -> bool
    ensures { result ≡ same_job (job_of job.now) (to_judge (node_part generation.0 (derivation_of rules.now))) }
{
    match job {
        NodeJob::Expand(_) => false,
        NodeJob::Judge(other, judged) => other.0 == generation.0 && same_rules(judged, rules),
    }
}

/// Whether it is one of these jobs to expand the node of this generation. It takes no memory.
pub fn is_expanded(out: &[NodeJob], generation: Gen) -> bool
    ensures out { result ≡ is_out (map job_of out.now) (to_expand generation.0) }
{
    for job in out {
        if is_to_expand(job, generation) {
            return true;
        }
    }
    false
}

/// Whether it is one of these jobs to judge this tree of rules at the node of this generation. It takes no memory.
pub fn is_judged(out: &[NodeJob], generation: Gen, rules: &Rules) -> bool
    ensures out { result ≡ is_out (map job_of out.now) (to_judge (node_part generation.0 (derivation_of rules.now))) }
{
    for job in out {
        if is_to_judge(job, generation, rules) {
            return true;
        }
    }
    false
}

// Whether there are fewer jobs than the number says.
fn has_room(jobs: &[NodeJob], limit: usize) -> bool
    ensures { result ≡ nat_lt (length (map job_of jobs.now)) limit }
{
    jobs.len() < limit
}

/// Takes on a job to expand the node of a generation, unless it is out or taken on already, or there are `limit` jobs.
pub(crate) fn add_expansion(
    out: &[NodeJob],
    generation: Gen,
    limit: usize,
    jobs: &mut Vec<NodeJob>,
) -> Result<(), Memory>
    ensures { OnOk result (map job_of jobs.new.items ≡
        with_job limit (map job_of out.now) (map job_of jobs.old.items) (to_expand generation.0)) }
{
    if has_room(jobs, limit) && !is_expanded(out, generation) && !is_expanded(jobs, generation) {
        jobs.push(NodeJob::Expand(generation))?;
    }
    Ok(())
}

// Takes on a job to judge a tree of rules at a node, unless it is out or taken on already, or there are `limit` jobs.
fn add_judgement(
    alloc: Global,
    out: &[NodeJob],
    generation: Gen,
    rules: &Rules,
    limit: usize,
    jobs: &mut Vec<NodeJob>,
) -> Result<(), Memory>
    ensures { OnOk result (map job_of jobs.new.items ≡ with_job limit (map job_of out.now) (map job_of jobs.old.items)
        (to_judge (node_part generation.0 (derivation_of rules.now)))) }
{
    if has_room(jobs, limit)
        && !is_judged(out, generation, rules)
        && !is_judged(jobs, generation, rules)
    {
        jobs.push(NodeJob::Judge(generation, rules.copy(alloc)?))?;
    }
    Ok(())
}

// The same, unless something is known of the tree of rules.
fn add_unknown(
    alloc: Global,
    pieces: &Pieces,
    out: &[NodeJob],
    generation: Gen,
    rules: &Rules,
    limit: usize,
    jobs: &mut Vec<NodeJob>,
) -> Result<(), Memory>
    ensures { OnOk result (map job_of jobs.new.items ≡ taken_on (with_job limit (map job_of out.now)) (map job_of jobs.old.items)
        (map to_judge (unless_known (stored pieces.now generation.0 (derivation_of rules.now))
        (node_part generation.0 (derivation_of rules.now)) []))) }
{
    if pieces.find(generation, rules).is_some() {
        return Ok(());
    }
    add_judgement(alloc, out, generation, rules, limit, jobs)
}

/// Takes on a job for each part of a tree of rules, from the left, at a node of which nothing is known, unless it is out or taken on already,
/// or there are `limit` jobs. It recurs as deep as operators nest.
pub(crate) fn add_unjudged(
    alloc: Global,
    pieces: &Pieces,
    out: &[NodeJob],
    branch: &Branch,
    rules: &Rules,
    limit: usize,
    jobs: &mut Vec<NodeJob>,
) -> Result<(), Memory>
    ensures added { OnOk result (map job_of jobs.new.items ≡ taken_on (with_job limit (map job_of out.now)) (map job_of jobs.old.items)
        (map to_judge (missing_parts (stored pieces.now) (shape_of branch.now) (derivation_of rules.now)))) }
{
    match branch {
        Branch::Leaf(node) => add_unknown(alloc, pieces, out, node.generation, rules, limit, jobs),
        Branch::Ended => Ok(()),
        Branch::Over(operator, part) => match part_under(operator, rules) {
            None => Ok(()),
            Some(below) => add_unjudged(alloc, pieces, out, part, below.rules, limit, jobs),
        },
        Branch::Between(operator, left, right) => match sides_under(operator, rules) {
            Sides::Neither => Ok(()),
            Sides::Left(side) => add_unjudged(alloc, pieces, out, left, side.rules, limit, jobs),
            Sides::Right(side) => add_unjudged(alloc, pieces, out, right, side.rules, limit, jobs),
            Sides::Both(_, one, other) => {
                add_unjudged(alloc, pieces, out, left, one, limit, jobs)?;
                add_unjudged(alloc, pieces, out, right, other, limit, jobs)
            }
        },
    }
}
