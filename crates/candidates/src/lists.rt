// A known tree as lists of trees of rules, of which some wait for nodes.

ghost use Rattle.rule_model.specs.Derivations.{Derivation, derivation_of};
ghost use Rattle.candidates.specs.Jobs as jobs;
ghost use Rattle.candidates.specs.Models.{job_of};
ghost use Rattle.candidates.specs.KnownTrees.{with_job_in, numbered, first_of_those, all_of_those, jobs_to_first_of, jobs_to_all_of};
ghost use Rattle.candidates.specs.KnownTrees.{is_held_among, trees_for};

use crate::job::NodeJob;
use crate::known_tree::KnownTree;
use decision_order::asking::{Asked, Asking};
use decision_order::listing::{All, First, Listing, Search};
use rule_model::rules::Rules;
use spec_core::memory::Memory;
use std::alloc::Global;

impl<'a> Listing for KnownTree<'a> {
    type Found = Rules;

    ghost Candidate = { Derivation };

    ghost candidate_of = { derivation_of };

    ghost find = { λ s q. first_of_those s (numbered s q) (trees_for s (numbered s q)) };

    ghost every = { λ s q. all_of_those s (numbered s q) (trees_for s (numbered s q)) };

    fn first(&self, alloc: Global, search: Search) -> Result<First<Rules>, Memory> {
        self.first_asked(alloc, self.tree_search(search))
    }

    fn all(&self, alloc: Global, search: Search) -> Result<All<Rules>, Memory> {
        self.all_asked(alloc, self.tree_search(search))
    }
}

impl<'a> Asking for KnownTree<'a> {
    type Job = NodeJob;

    ghost Question = { jobs.NodeJob };

    ghost question_of = { job_of };

    ghost take = { with_job_in };

    ghost missing = { λ s q. jobs_to_first_of s (numbered s q) (trees_for s (numbered s q)) };

    ghost every_missing = { λ s q. jobs_to_all_of s (numbered s q) (trees_for s (numbered s q)) };

    ghost is_there = { λ s q. is_held_among s (numbered s q) (trees_for s (numbered s q)) };

    fn first_missing(
        &self,
        alloc: Global,
        search: Search,
        limit: usize,
        jobs: &mut Vec<NodeJob>,
    ) -> Result<Asked, Memory> {
        self.missing_to_first(alloc, self.tree_search(search), limit, jobs)
    }

    fn all_missing(
        &self,
        alloc: Global,
        search: Search,
        limit: usize,
        jobs: &mut Vec<NodeJob>,
    ) -> Result<Asked, Memory> {
        self.missing_to_all(alloc, self.tree_search(search), limit, jobs)
    }
}
