// Searches among the trees of a known tree.

ghost use Rattle.std.specs.Prelude.{◌≡◌, ◌∷◌, ◌||◌, [], IfOk, List, OnOk, length, map, nat_eq, nat_lt, not, option_map};
ghost use Rattle.std.specs.List.{slice_get};
ghost use Rattle.rule_model.specs.Derivations.{Derivation, derivation_of};
ghost use Rattle.decision_trees.specs.Gaps.{OrGap};
ghost use Rattle.log_states.specs.Views.{pending_of};
ghost use Rattle.decision_order.specs.Jobs.{taken_on, Tells};
ghost use Rattle.decision_order.specs.Searches as settling;
ghost use Rattle.decision_order.specs.Searches.{first_of, all_of};
ghost use Rattle.candidate_search.specs.Searches.{query_of};
ghost use Rattle.node_trees.specs.Shapes.{shape_of};
ghost use Rattle.candidate_composites.specs.Tables.{windows_in};
ghost use Rattle.candidate_composites.specs.Foremost.{IsForemost};
ghost use Rattle.candidate_composites.specs.Known.{placed_of, placed_plans};
ghost use Rattle.candidates.specs.Listed.{trees_sought};
ghost use Rattle.spec_core.specs.Theories.{theory_of};
ghost use Rattle.candidates.specs.Jobs.{expansions_of, with_job};
ghost use Rattle.candidates.specs.Models.{job_of};
ghost use Rattle.candidates.specs.Walks.{met_of, ahead};
ghost use Rattle.candidates.specs.KnownTrees.{offer_in, numbered, with_job_in, first_of_those, all_of_those, jobs_to_first_of, jobs_to_all_of};
ghost use Rattle.candidates.specs.KnownTrees.{is_held_among, parts_along, trees_for};

use crate::composites::Composites;
use crate::job::{NodeJob, add_expansion, add_unjudged};
use crate::known_tree::KnownTree;
use crate::walk::{Met, Walk, kinds_sought};
use candidate_composites::foremost::{Foremost, foremost_of};
use candidate_composites::known::sought_composites;
use candidate_composites::part::Part;
use candidate_search::searches::TreeSearch;
use candidate_verdicts::asked::verdict;
use decision_order::asking::Asked;
use decision_order::listing::{All, First, Search};
use log_states::pending::Pending;
use node_trees::origin::Gen;
use rule_model::offer::Offer;
use rule_model::rules::Rules;
use spec_core::memory::Memory;
use std::alloc::Global;

// The pending offer with a number, if there is one.
fn pending_at(offers: &[Pending], number: u32) -> Option<&Pending>
    ensures { option_map (λ p. pending_of p.now) result ≡ slice_get (map pending_of offers.now) number }
{
    offers.get(number as usize)
}

// What a query comes to at what a walk meets.
fn first_at(
    alloc: Global,
    known: &KnownTree<'_>,
    search: &TreeSearch<'_>,
    met: Met,
) -> Result<First<Rules>, Memory>
    ensures { IfOk result (λ f. first_of derivation_of f ≡ first_of_those known.now (query_of search.now) (met_of met ∷ [])) }
{
    match met {
        Met::Gap(_) => Ok(First::Open),
        Met::Tree(rules) => match verdict(
            alloc,
            known.algebra,
            known.windows,
            known.pieces,
            known.tree,
            search,
            &rules,
        )? {
            None => Ok(First::Open),
            Some(true) => Ok(First::Is(rules)),
            Some(false) => Ok(First::Absent),
        },
    }
}

// Takes on what is to be done for a query at what a walk meets; whether it is known to hold there.
fn missing_at(
    alloc: Global,
    known: &KnownTree<'_>,
    search: &TreeSearch<'_>,
    met: Met,
    limit: usize,
    jobs: &mut Vec<NodeJob>,
) -> Result<bool, Memory>
    ensures taken { OnOk result (map job_of jobs.new.items ≡ taken_on (with_job_in known.now limit) (map job_of jobs.old.items)
        (jobs_to_all_of known.now (query_of search.now) (met_of met ∷ []))) }
    ensures held { IfOk result (λ held. held ≡ is_held_among known.now (query_of search.now) (met_of met ∷ [])) }
{
    match met {
        Met::Gap(generation) => {
            add_expansion(known.out, generation, limit, jobs)?;
            Ok(false)
        }
        Met::Tree(rules) => match verdict(
            alloc,
            known.algebra,
            known.windows,
            known.pieces,
            known.tree,
            search,
            &rules,
        )? {
            None => {
                add_unjudged(
                    alloc,
                    known.pieces,
                    known.out,
                    known.tree,
                    &rules,
                    limit,
                    jobs,
                )?;
                Ok(false)
            }
            Some(held) => Ok(held),
        },
    }
}

// Whether one of two is so.
fn either(one: bool, other: bool) -> bool
    ensures { result ≡ one || other }
{
    one || other
}

// Whether there are as many jobs as the number says.
fn is_full(jobs: &[NodeJob], limit: usize) -> bool
    ensures { result ≡ not (nat_lt (length (map job_of jobs.now)) limit) }
{
    jobs.len() >= limit
}

// No gap is told.
fn untold(alloc: Global) -> Foremost
    ensures { (l : List (OrGap Derivation)) → IsForemost result l }
{
    Foremost {
        gaps: Vec::new(alloc),
        alone: false,
    }
}

// Whether there are no gaps.
fn is_none(gaps: &[Gen]) -> bool
    ensures { result ≡ nat_eq (length gaps.now) 0 }
{
    match gaps {
        [] => true,
        [_, ..] => false,
    }
}

// Takes on a job to expand the node of each of these generations.
fn add_expansions(
    out: &[NodeJob],
    gaps: &[Gen],
    limit: usize,
    jobs: &mut Vec<NodeJob>,
) -> Result<(), Memory>
    ensures { OnOk result (map job_of jobs.new.items ≡
        taken_on (with_job limit (map job_of out.now)) (map job_of jobs.old.items) (expansions_of gaps.now)) }
{
    match gaps {
        [] => Ok(()),
        [first, rest @ ..] => {
            add_expansion(out, *first, limit, jobs)?;
            add_expansions(out, rest, limit, jobs)
        }
    }
}

impl<'a> KnownTree<'a> {
    // The offer with a number.
    fn offer(&self, number: u32) -> &Offer
        ensures { result.now ≡ (offer_in self.now number).offer }
    {
        match pending_at(self.offers, number) {
            None => &self.nowhere.offer,
            Some(pending) => &pending.offer,
        }
    }

    // The search for trees for which a query asks.
    pub(crate) fn tree_search(&self, search: Search) -> TreeSearch<'_>
        ensures { query_of result ≡ numbered self.now (settling.query_of search) }
    {
        match search {
            Search::Meeting(number) => TreeSearch::Meeting(self.offer(number)),
            Search::Any => TreeSearch::Any,
            Search::Unseen => TreeSearch::Unseen,
            Search::Beyond(number) => TreeSearch::Beyond(self.offer(number)),
            Search::AnyBeyond => TreeSearch::AnyBeyond,
            Search::BeyondOrUnseen(number) => TreeSearch::BeyondOrUnseen(self.offer(number)),
        }
    }

    // The composites of the tree that a query may ask for, and the gaps.
    fn sought(&self, alloc: Global, search: &TreeSearch<'_>) -> Result<Vec<Part<'a>>, Memory>
        ensures { IfOk result (λ all. trees_sought (theory_of self.now.algebra.now) (windows_in self.now.windows.now) (query_of search.now)
            (map placed_of all.items) ≡ trees_sought (theory_of self.now.algebra.now) (windows_in self.now.windows.now)
            (query_of search.now) (placed_plans (theory_of self.now.algebra.now) (shape_of self.now.tree.now))) }
    {
        let sought = kinds_sought(alloc, search)?;
        sought_composites(alloc, self.algebra, self.tree, &sought)
    }

    // The same, where the composites of the tree aren't listed; else none.
    fn others(&self, alloc: Global, search: &TreeSearch<'_>) -> Result<Vec<Part<'a>>, Memory>
        ensures { IfOk result (λ all. trees_sought (theory_of self.now.algebra.now) (windows_in self.now.windows.now) (query_of search.now)
            (parts_along self.now (map placed_of all.items)) ≡ trees_for self.now (query_of search.now)) }
    {
        match &self.composites {
            Composites::Unlisted => self.sought(alloc, search),
            Composites::Lent(_) => Ok(Vec::new(alloc)),
            Composites::Listed(_) => Ok(Vec::new(alloc)),
        }
    }

    // A walk along the trees of the parts that are listed, or else of others, for which a query may ask.
    fn walk<'b>(&'b self, search: TreeSearch<'b>, others: &'b [Part<'a>]) -> Walk<'b, 'a>
        ensures { ahead result ≡ trees_sought (theory_of self.now.algebra.now) (windows_in self.now.windows.now) (query_of search.entry)
            (parts_along self.now (map placed_of others.now)) }
    {
        match &self.composites {
            Composites::Unlisted => {
                return Walk::new(self.algebra, self.windows, search, others);
            }
            Composites::Lent(all) => {
                return Walk::over(self.algebra, self.windows, search, *all);
            }
            Composites::Listed(all) => {
                return Walk::over(self.algebra, self.windows, search, all);
            }
        }
    }

    // Which gaps stand first among the trees for which a query may ask, `limit` at least, as far as it is told without any list.
    fn foremost(
        &self,
        alloc: Global,
        search: &TreeSearch<'_>,
        limit: usize,
    ) -> Result<Foremost, Memory>
        ensures { IfOk result (λ f. IsForemost f (trees_for self.now (query_of search.now))) }
    {
        match &self.composites {
            Composites::Unlisted => {
                let sought = kinds_sought(alloc, search)?;
                foremost_of(alloc, self.tree, &sought, limit)
            }
            Composites::Lent(_) => Ok(untold(alloc)),
            Composites::Listed(_) => Ok(untold(alloc)),
        }
    }

    // The first tree for which a query asks, along those for which it may ask.
    #[tactic(auto, using(crate::proofs::Asking::first_after))]
    fn first_along(&self, alloc: Global, search: TreeSearch<'_>) -> Result<First<Rules>, Memory>
        ensures { IfOk result (λ f. first_of derivation_of f ≡
            first_of_those self.now (query_of search.entry) (trees_for self.now (query_of search.entry))) }
    {
        let others = self.others(alloc, &search)?;
        let mut walk = self.walk(search, &others);
        while let Some(met) = walk.next(alloc)? {
            match first_at(alloc, self, &search, met)? {
                First::Open => return Ok(First::Open),
                First::Absent => {}
                First::Is(tree) => return Ok(First::Is(tree)),
            }
        }
        Ok(First::Absent)
    }

    // The first tree for which a query asks.
    #[tactic(auto, using(crate::proofs::StandingFirst::absent_in_none))]
    pub(crate) fn first_asked(
        &self,
        alloc: Global,
        search: TreeSearch<'_>,
    ) -> Result<First<Rules>, Memory>
        ensures { IfOk result (λ f. first_of derivation_of f ≡
            first_of_those self.now (query_of search.entry) (trees_for self.now (query_of search.entry))) }
    {
        let foremost = self.foremost(alloc, &search, 1)?;
        if !is_none(&foremost.gaps) {
            return Ok(First::Open);
        }
        if foremost.alone {
            return Ok(First::Absent);
        }
        self.first_along(alloc, search)
    }

    // All trees for which a query asks, along those for which it may ask.
    #[tactic(auto, using(crate::proofs::Asking::all_after))]
    fn all_along(&self, alloc: Global, search: TreeSearch<'_>) -> Result<All<Rules>, Memory>
        ensures { IfOk result (λ a. all_of derivation_of a ≡
            all_of_those self.now (query_of search.entry) (trees_for self.now (query_of search.entry))) }
    {
        let others = self.others(alloc, &search)?;
        let mut walk = self.walk(search, &others);
        let mut those = Vec::new(alloc);
        while let Some(met) = walk.next(alloc)? {
            match first_at(alloc, self, &search, met)? {
                First::Open => return Ok(All::Undecided),
                First::Absent => {}
                First::Is(tree) => those.push(tree)?,
            }
        }
        Ok(All::These(those))
    }

    // All trees for which a query asks.
    #[tactic(auto, using(crate::proofs::StandingFirst::none_in_none))]
    pub(crate) fn all_asked(
        &self,
        alloc: Global,
        search: TreeSearch<'_>,
    ) -> Result<All<Rules>, Memory>
        ensures { IfOk result (λ a. all_of derivation_of a ≡
            all_of_those self.now (query_of search.entry) (trees_for self.now (query_of search.entry))) }
    {
        let foremost = self.foremost(alloc, &search, 1)?;
        if !is_none(&foremost.gaps) {
            return Ok(All::Undecided);
        }
        if foremost.alone {
            return Ok(All::These(Vec::new(alloc)));
        }
        self.all_along(alloc, search)
    }

    // Takes on what the search for the first tree still asks, along those for which it may ask.
    #[tactic(auto, using(crate::proofs::Asking::first_asked))]
    fn missing_along(
        &self,
        alloc: Global,
        search: TreeSearch<'_>,
        limit: usize,
        jobs: &mut Vec<NodeJob>,
    ) -> Result<Asked, Memory>
        ensures taken { OnOk result (map job_of jobs.new.items ≡ taken_on (with_job_in self.now limit) (map job_of jobs.old.items)
            (jobs_to_first_of self.now (query_of search.entry) (trees_for self.now (query_of search.entry)))) }
        ensures asked { IfOk result (Tells (with_job_in self.now limit) (map job_of jobs.new.items)
            (is_held_among self.now (query_of search.entry) (trees_for self.now (query_of search.entry)))) }
    {
        let others = self.others(alloc, &search)?;
        let mut walk = self.walk(search, &others);
        while let Some(met) = walk.next(alloc)? {
            if missing_at(alloc, self, &search, met, limit, jobs)? {
                return Ok(Asked::Held);
            }
            if is_full(jobs, limit) {
                return Ok(Asked::Full);
            }
        }
        Ok(Asked::Unheld)
    }

    // Takes on what the search for the first tree still asks.
    pub(crate) fn missing_to_first(
        &self,
        alloc: Global,
        search: TreeSearch<'_>,
        limit: usize,
        jobs: &mut Vec<NodeJob>,
    ) -> Result<Asked, Memory>
        ensures taken { OnOk result (map job_of jobs.new.items ≡ taken_on (with_job_in self.now limit) (map job_of jobs.old.items)
            (jobs_to_first_of self.now (query_of search.entry) (trees_for self.now (query_of search.entry)))) }
        ensures asked { IfOk result (Tells (with_job_in self.now limit) (map job_of jobs.new.items)
            (is_held_among self.now (query_of search.entry) (trees_for self.now (query_of search.entry)))) }
    {
        let foremost = self.foremost(alloc, &search, limit.saturating_add(self.out.len()))?;
        add_expansions(self.out, &foremost.gaps, limit, jobs)?;
        if foremost.alone {
            return Ok(Asked::Unheld);
        }
        if is_full(jobs, limit) {
            return Ok(Asked::Full);
        }
        self.missing_along(alloc, search, limit, jobs)
    }

    // Takes on what the search for all trees still asks, along those for which it may ask.
    #[tactic(auto, using(crate::proofs::Asking::all_asked))]
    fn all_missing_along(
        &self,
        alloc: Global,
        search: TreeSearch<'_>,
        limit: usize,
        jobs: &mut Vec<NodeJob>,
    ) -> Result<Asked, Memory>
        ensures taken { OnOk result (map job_of jobs.new.items ≡ taken_on (with_job_in self.now limit) (map job_of jobs.old.items)
            (jobs_to_all_of self.now (query_of search.entry) (trees_for self.now (query_of search.entry)))) }
        ensures asked { IfOk result (Tells (with_job_in self.now limit) (map job_of jobs.new.items)
            (is_held_among self.now (query_of search.entry) (trees_for self.now (query_of search.entry)))) }
    {
        let others = self.others(alloc, &search)?;
        let mut walk = self.walk(search, &others);
        let mut held = false;
        while let Some(met) = walk.next(alloc)? {
            let here = missing_at(alloc, self, &search, met, limit, jobs)?;
            held = either(held, here);
            if is_full(jobs, limit) {
                return Ok(Asked::Full);
            }
        }
        if held {
            Ok(Asked::Held)
        } else {
            Ok(Asked::Unheld)
        }
    }

    // Takes on what the search for all trees still asks.
    pub(crate) fn missing_to_all(
        &self,
        alloc: Global,
        search: TreeSearch<'_>,
        limit: usize,
        jobs: &mut Vec<NodeJob>,
    ) -> Result<Asked, Memory>
        ensures taken { OnOk result (map job_of jobs.new.items ≡ taken_on (with_job_in self.now limit) (map job_of jobs.old.items)
            (jobs_to_all_of self.now (query_of search.entry) (trees_for self.now (query_of search.entry)))) }
        ensures asked { IfOk result (Tells (with_job_in self.now limit) (map job_of jobs.new.items)
            (is_held_among self.now (query_of search.entry) (trees_for self.now (query_of search.entry)))) }
    {
        let foremost = self.foremost(alloc, &search, limit.saturating_add(self.out.len()))?;
        add_expansions(self.out, &foremost.gaps, limit, jobs)?;
        if foremost.alone {
            return Ok(Asked::Unheld);
        }
        if is_full(jobs, limit) {
            return Ok(Asked::Full);
        }
        self.all_missing_along(alloc, search, limit, jobs)
    }
}
