// The next entry of a session from what is known of its tree, and the jobs that it still needs.

ghost use Rattle.std.specs.Prelude.{◌≡◌, [], IfOk, map, option_map};
ghost use Rattle.rule_model.specs.Derivations.{derivation_of};
ghost use Rattle.decision_trees.specs.Lazy.{first};
ghost use Rattle.decision_order.specs.Jobs.{first_not_out, taken_on};
ghost use Rattle.decision_order.specs.Needed.{next_needed};
ghost use Rattle.decision_order.specs.Numbered.{entry_with, waiting_with};
ghost use Rattle.decision_order.specs.Rules.{next_decided};
ghost use Rattle.decision_order.specs.Searches.{settled_of, waiting_of};
ghost use Rattle.candidates.specs.Models.{job_of};
ghost use Rattle.candidates.specs.KnownTrees.{offer_in, is_out_in, with_job_in, first_in, all_in, jobs_to_first, jobs_to_all};
ghost use Rattle.candidates.specs.KnownTrees.{is_held_in, HasItsParts};

use crate::job::NodeJob;
use crate::known_tree::KnownTree;
use decision_order::listing::OffersByNumber;
use decision_order::needed;
use decision_order::settle::{Settled, settle};
use rule_model::rules::Rules;
use spec_core::memory::Memory;
use std::alloc::Global;

/// The next entry by the rules of a session, as far as what is known of the tree decides it. Offers are given by their numbers, which are
/// their places among the pending ones.
pub fn next_entry(
    alloc: Global,
    known: &KnownTree<'_>,
    offers: &OffersByNumber,
) -> Result<Settled<Rules>, Memory>
    requires parts { HasItsParts known.now }
    ensures next { IfOk result (λ s. option_map (entry_with (offer_in known.now)) (settled_of derivation_of s) ≡
        next_decided (first_in known.now) (all_in known.now) (waiting_with (offer_in known.now) (waiting_of offers.now))) }
{
    settle(alloc, known, offers)
}

/// The first jobs that the next entry still needs and that aren't out, each once, at most `limit`; none where all that it needs, as far as what
/// is known, is out.
pub fn next_jobs(
    alloc: Global,
    known: &KnownTree<'_>,
    offers: &OffersByNumber,
    limit: usize,
) -> Result<Vec<NodeJob>, Memory>
    requires parts { HasItsParts known.now }
    ensures jobs { IfOk result (λ jobs. map job_of jobs.items ≡ taken_on (with_job_in known.now limit) []
        (next_needed (jobs_to_first known.now) (jobs_to_all known.now) (is_held_in known.now)
        (waiting_with (offer_in known.now) (waiting_of offers.now)))) }
{
    needed::next_jobs(alloc, known, offers, limit)
}

// The first of some jobs.
fn first_of(jobs: Vec<NodeJob>) -> Option<NodeJob>
    ensures { option_map job_of result ≡ first (map job_of jobs.items) }
{
    let mut jobs = jobs;
    jobs.truncate(1);
    jobs.pop()
}

/// The first job that the next entry still needs and that isn't out; None where all that it needs, as far as what is known, is out.
pub fn next_job(
    alloc: Global,
    known: &KnownTree<'_>,
    offers: &OffersByNumber,
) -> Result<Option<NodeJob>, Memory>
    requires parts { HasItsParts known.now }
    ensures job { IfOk result (λ job. option_map job_of job ≡ first_not_out (is_out_in known.now)
        (next_needed (jobs_to_first known.now) (jobs_to_all known.now) (is_held_in known.now)
        (waiting_with (offer_in known.now) (waiting_of offers.now)))) }
{
    Ok(first_of(next_jobs(alloc, known, offers, 1)?))
}
