// Searches among candidates, and what they still ask.

ghost use Rattle.std.specs.Prelude.{ℕ, ◌≡◌, IfOk, OnOk, List, Bool, map};
ghost use Rattle.decision_trees.specs.Rules.{Query};
ghost use Rattle.decision_order.specs.Searches.{query_of};
ghost use Rattle.decision_order.specs.Jobs.{taken_on, Tells};

use crate::listing::Search;
use spec_core::memory::Memory;
use std::alloc::Global;

/// What came of a search for what is still asked.
#[derive(Clone, Copy)]
pub enum Asked {
    /// So many jobs are taken on that no more are.
    Full,
    /// All that it asks is taken on that isn't out; a candidate is known to hold.
    Held,
    /// All that it asks is taken on that isn't out; no candidate is known to hold.
    Unheld,
}

/// Lists of candidates, of which some wait for nodes to be expanded, or for candidates to be judged. Some of these jobs are out.
pub trait Asking {
    /// A node to expand, or a candidate to judge.
    type Job: Drop;

    /// What jobs answer.
    ghost Question: { Type 0 };

    ghost question_of: { Self.Job → Question };

    /// What is taken on with one more question: nothing more where the question is out or taken on already, or where there are as many as the
    /// number says.
    ghost take: { Self → ℕ → List Question → Question → List Question };

    ghost missing: { Self → Query ℕ → List Question };

    ghost every_missing: { Self → Query ℕ → List Question };

    ghost is_there: { Self → Query ℕ → Bool };

    /// Takes on what the search for the first candidate that holds still asks, up to `limit` jobs in all.
    fn first_missing(
        &self,
        alloc: Global,
        search: Search,
        limit: usize,
        jobs: &mut Vec<Self::Job>,
    ) -> Result<Asked, Memory>
        ensures taken { OnOk result (map question_of jobs.new.items ≡
            taken_on (take self.now limit) (map question_of jobs.old.items) (missing self.now (query_of search))) }
        ensures asked { IfOk result (Tells (take self.now limit) (map question_of jobs.new.items) (is_there self.now (query_of search))) };

    /// Takes on what the search for all candidates that hold still asks, up to `limit` jobs in all.
    fn all_missing(
        &self,
        alloc: Global,
        search: Search,
        limit: usize,
        jobs: &mut Vec<Self::Job>,
    ) -> Result<Asked, Memory>
        ensures taken { OnOk result (map question_of jobs.new.items ≡
            taken_on (take self.now limit) (map question_of jobs.old.items) (every_missing self.now (query_of search))) }
        ensures asked { IfOk result (Tells (take self.now limit) (map question_of jobs.new.items) (is_there self.now (query_of search))) };
}
