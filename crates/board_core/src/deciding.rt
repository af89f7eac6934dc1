// What comes next, as far as what is known decides it.

ghost use Rattle.std.specs.Prelude.{suc, ◌≡◌, ◌↔◌, ◌∷◌, [], IfOk, IfSome, IsTrue, Some, map, option_map};
ghost use Rattle.spec_core.specs.Lists.{IsOneOf};
ghost use Rattle.rule_model.specs.Derivations.{derivation_of};
ghost use Rattle.log_states.specs.Views.{pending_of};
ghost use Rattle.board_laws.specs.Lazy.{first};
ghost use Rattle.candidates.specs.Composites.{AreAllOf};
ghost use Rattle.candidates.specs.KnownTrees.{HasItsParts};
ghost use Rattle.candidates.specs.Jobs.{is_out, with_job};
ghost use Rattle.candidates.specs.Models.{job_of};
ghost use Rattle.decision_order.specs.Jobs.{first_not_out, taken_on};
ghost use Rattle.node_trees.specs.Shapes.{shape_of};
ghost use Rattle.board_core.specs.Entries.{entry_of};
ghost use Rattle.board_core.specs.Views.{program, state, tree, decided_at, needed_at};
ghost use Rattle.board_core.specs.Working.{IsNeeded, first_free};

use crate::board::Board;
use crate::copying::is_same;
use board_laws::OFFERS_LIMIT;
use board_offers::waiting::offers_by_number;
use candidates::entry::{next_entry, next_job, next_jobs};
use candidates::job::NodeJob;
use candidates::known_tree::KnownTree;
use decision_order::settle::Settled;
use offer_index::index::OfferIndex;
use offer_index::{OpenComposite, some_waits};
use rule_model::rules::Rules;
use spec_core::memory::Memory;
use std::alloc::Global;

// The first job, and the others.
fn first_apart(tasks: Vec<NodeJob>) -> Option<(NodeJob, Vec<NodeJob>)>
    ensures first { option_map (λ r. job_of r.0) result ≡ first (map job_of tasks.items) }
    ensures those { IfSome result (λ r. job_of r.0 ∷ map job_of r.1.items ≡ map job_of tasks.items) }
{
    let mut tasks = tasks;
    if tasks.is_empty() {
        return None;
    }
    let first = tasks.remove(0);
    Some((first, tasks))
}

impl Board {
    // Lists the composites of the tree, unless some node waits: there is a gap for each way up from such a node, and these may be more than
    // all composites. Contracts see nothing of the list.
    pub(crate) fn list_composites(&mut self, alloc: Global) -> Result<(), Memory>
        ensures same { self.new ≡ self.old }
    {
        if self.index.is_some() {
            return Ok(());
        }
        if some_waits(self.record.tree().root()) {
            return Ok(());
        }
        self.record.log_is_a_derivation();
        let index = OfferIndex::new(
            alloc,
            self.record.checked(),
            &self.windows,
            self.record.tree().root(),
        )?;
        self.index = Some(index);
        Ok(())
    }

    // The composites of the tree, where they are listed.
    fn composites(&self) -> Option<&[OpenComposite]>
        ensures { IfSome result (λ all. AreAllOf (program self.now).theory (tree self.now) all.now) }
    {
        match &self.index {
            None => None,
            Some(index) => {
                if index.total() > OFFERS_LIMIT {
                    None
                } else {
                    Some(index.composites())
                }
            }
        }
    }

    // The tree with what is known of it, while these jobs are out.
    fn known_besides<'a>(
        &'a self,
        alloc: Global,
        out: &'a [NodeJob],
    ) -> Result<KnownTree<'a>, Memory>
        ensures algebra { IfOk result (λ k. k.algebra.now ≡ self.now.session.checked.algebra) }
        ensures windows { IfOk result (λ k. k.windows.now ≡ self.now.windows) }
        ensures tree { IfOk result (λ k. shape_of k.tree.now ≡ tree self.now) }
        ensures pieces { IfOk result (λ k. k.pieces.now ≡ self.now.pieces) }
        ensures offers { IfOk result (λ k. map pending_of k.offers.now ≡ (state self.now).pending) }
        ensures parts { IfOk result HasItsParts }
        ensures out { IfOk result (λ k. k.out.now ≡ out.now) }
    {
        KnownTree::new(
            alloc,
            &self.record.checked().algebra,
            &self.windows,
            self.record.tree().root(),
            self.composites(),
            &self.pieces,
            self.record.state().pending(),
            out,
        )
    }

    // The tree with what is known of it.
    pub(crate) fn known(&self, alloc: Global) -> Result<KnownTree<'_>, Memory>
        ensures algebra { IfOk result (λ k. k.algebra.now ≡ self.now.session.checked.algebra) }
        ensures windows { IfOk result (λ k. k.windows.now ≡ self.now.windows) }
        ensures tree { IfOk result (λ k. shape_of k.tree.now ≡ tree self.now) }
        ensures pieces { IfOk result (λ k. k.pieces.now ≡ self.now.pieces) }
        ensures offers { IfOk result (λ k. map pending_of k.offers.now ≡ (state self.now).pending) }
        ensures parts { IfOk result HasItsParts }
        ensures out { IfOk result (λ k. k.out.now ≡ self.now.out) }
    {
        self.known_besides(alloc, &self.out)
    }

    /// The next entry by the rules of a session, as far as what is known decides it.
    pub fn next(&self, alloc: Global) -> Result<Settled<Rules>, Memory>
        ensures next { IfOk result (λ s. entry_of self.now s ≡ decided_at self.now) }
    {
        let offers = offers_by_number(alloc, self.state())?;
        let known = self.known(alloc)?;
        next_entry(alloc, &known, &offers)
    }

    // The first job that the rules still need, besides these.
    fn next_besides(&self, alloc: Global, out: &[NodeJob]) -> Result<Option<NodeJob>, Memory>
        ensures job { IfOk result (λ job. option_map job_of job ≡ first_not_out (is_out (map job_of out.now)) (needed_at self.now)) }
    {
        let offers = offers_by_number(alloc, self.state())?;
        let known = self.known_besides(alloc, out)?;
        next_job(alloc, &known, &offers)
    }

    // The first jobs that the rules still need and that aren't out, each once, up to so many.
    fn next_tasks(&self, alloc: Global, limit: usize) -> Result<Vec<NodeJob>, Memory>
        ensures jobs { IfOk result (λ jobs. map job_of jobs.items ≡
            taken_on (with_job limit (map job_of self.now.out)) [] (needed_at self.now)) }
    {
        let offers = offers_by_number(alloc, self.state())?;
        let known = self.known(alloc)?;
        next_jobs(alloc, &known, &offers, limit)
    }

    // The first job that the rules still need and that isn't out, and at most so many others, each once.
    pub(crate) fn first_tasks(
        &self,
        alloc: Global,
        more: u8,
    ) -> Result<Option<(NodeJob, Vec<NodeJob>)>, Memory>
        ensures first { IfOk result (λ o. option_map (λ r. job_of r.0) o ≡ first_free self.now) }
        ensures those { IfOk result (λ o. IfSome o (λ r. job_of r.0 ∷ map job_of r.1.items ≡
            taken_on (with_job (suc more) (map job_of self.now.out)) [] (needed_at self.now))) }
    {
        let tasks = self.next_tasks(alloc, usize::from(more) + 1)?;
        Ok(first_apart(tasks))
    }

    // Whether the job is among those that the rules still need.
    fn is_among_needed(&self, alloc: Global, task: &NodeJob) -> Result<bool, Memory>
        ensures { IfOk result (λ among. IsTrue among ↔ IsOneOf (job_of task.now) (needed_at self.now)) }
    {
        let mut passed = Vec::new(alloc);
        for _ in 0..u64::MAX {
            match self.next_besides(alloc, &passed)? {
                None => return Ok(false),
                Some(job) => {
                    if is_same(&job, task) {
                        return Ok(true);
                    }
                    passed.push(job)?;
                }
            }
        }
        Err(Memory)
    }

    /// Whether the rules still need the job: the session goes on by them, doesn't wait for its clients, and this job is one of those that they
    /// ask, as far as is known. Whoever worked at a job without the board looks again by this call before it says that the job has no answer.
    pub fn is_needed(&self, alloc: Global, task: &NodeJob) -> Result<bool, Memory>
        ensures { IfOk result (λ needed. IsTrue needed ↔ IsNeeded self.now (job_of task.now)) }
    {
        if self.stopped() {
            return Ok(false);
        }
        if !self.goes_by_rules() {
            return Ok(false);
        }
        if self.awaits_clients() {
            return Ok(false);
        }
        self.is_among_needed(alloc, task)
    }
}
