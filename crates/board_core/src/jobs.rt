// The jobs of a board: what workers do for it.

ghost use Rattle.std.specs.Prelude.{ℕ, suc, ◌≡◌, ◌↔◌, ◌<◌, ◌≤◌, ◌∷◌, IfOk, IfSome, IfNone, IsTrue, OnErr, None, Some, [], false, map};
ghost use Rattle.spec_core.specs.Lists.{Each, IsOneOf};
ghost use Rattle.candidates.specs.Jobs as jobs;
ghost use Rattle.candidates.specs.Jobs.{to_expand, to_judge};
ghost use Rattle.candidates.specs.Models.{job_of};
ghost use Rattle.candidate_verdicts.specs.Known.{node_part};
ghost use Rattle.candidate_verdicts.specs.Laws.{IsPieceOf};
ghost use Rattle.candidate_verdicts.specs.Stored.{with_piece};
ghost use Rattle.rule_model.specs.Derivations.{Derivation, derivation_of};
ghost use Rattle.board_laws.specs.Next.{GoesByRules};
ghost use Rattle.sort_windows.specs.Found.{AreBySorts};
ghost use Rattle.board_laws.specs.StoppingLaws.{GiveReasons};
ghost use Rattle.board_laws.specs.Reasons.{IsReasonToStop, LooksForTrees};
ghost use Rattle.node_trees.specs.Origins.{source_of};
ghost use Rattle.node_trees.specs.Rests.{expansion_of};
ghost use Rattle.node_trees.specs.Shapes.{Held, IsNodeOf, Lives, posted};
ghost use Rattle.board_core.specs.Boards.{IsWorkAt};
ghost use Rattle.board_laws.specs.Needed.{Waits, generation_of};
ghost use Rattle.board_laws.specs.Counts.{limited, offers_limit, offers_of_tree};
ghost use Rattle.board_laws.specs.JobValues.{JobChoosesValues};
ghost use Rattle.board_core.specs.Working.{AreAsked, HasOrigin, IsAsked, IsFree, IsHandedOut, IsVerdict, KeepsNodes, NeededChooseValues};
ghost use Rattle.board_core.specs.Working.{NoneFree, WhyNone, first_free, first_reason, left_out};
ghost use Rattle.board_core.specs.Views.{program, state, tree, windows, pieces, needed_at, SameLog, SameSession, SameNodes};

use crate::board::Board;
use crate::copying::{copy_job, generation_of, is_same};
use crate::job::{Batch, Job, Post};
use crate::sources::is_same_origin;
use board_laws::stop_reason::StopReason;
use board_laws::{OFFERS_LIMIT, count_offers};
use candidate_verdicts::pieces::Piece;
use candidates::job::NodeJob;
use node_trees::expansion::Expansion;
use node_trees::origin::{Gen, Origin};
use offer_index::expanded_composites;
use rule_model::reply::LimitKind;
use spec_core::memory::Memory;
use spec_core::window::Window;
use std::alloc::Global;

impl Board {
    /// The first values of each sort, by the numbers of the sorts. It takes no memory.
    pub fn windows(&self) -> &[Window]
        ensures windows { result.now ≡ self.now.windows }
        ensures rows { AreBySorts (program self.now).theory self.now.settings.values self.now.windows }
    {
        &self.windows
    }

    // Whether a job may be needed: the session goes on by its rules.
    fn goes_on(&self) -> bool
        ensures goes_on { IsTrue result → (self.now.stop ≡ None) × GoesByRules (state self.now) }
        ensures looks { IsTrue result → LooksForTrees (state self.now) }
        ensures none { result ≡ false → NoneFree self.now }
    {
        if self.stop.is_some() {
            return false;
        }
        if !self.goes_by_rules() {
            return false;
        }
        !self.awaits_clients()
    }

    /// The job with what its node stands for. The node lives.
    pub fn with_origin(&self, alloc: Global, task: NodeJob) -> Result<Job, Memory>
        requires lives { Lives (tree self.now) (generation_of (job_of task)) }
        ensures task { IfOk result (λ j. j.task ≡ task) }
        ensures origin { IfOk result (λ j. (n : Held) → IsNodeOf (tree self.now) (generation_of (job_of task)) n → n.source ≡ source_of j.origin) }
    {
        match self.record.tree().at(generation_of(&task)) {
            None => unreachable!(),
            Some(node) => {
                let origin = node.origin.copy(alloc)?;
                Ok(Job { task, origin })
            }
        }
    }

    // The jobs that the rules need are at nodes that live.
    fn needed_jobs_live(&self)
        ensures { (job : jobs.NodeJob) → IsOneOf job (needed_at self.now) → Lives (tree self.now) (generation_of job) }
    {}

    /// Why a job has no answer that the rules need is a reason to stop in the state that is reached; and so is that its behaviour has more
    /// possible agreements than are looked at.
    pub fn jobs_give_reasons(&self)
        ensures { GiveReasons (program self.now) self.now.settings (windows self.now) (tree self.now) (pieces self.now) (state self.now) }
    {
        self.record.log_is_a_derivation();
        self.record.tree().generations_are_sound();
    }

    // The trees of the jobs that the rules need choose values.
    fn needed_jobs_choose_values(&self)
        ensures { NeededChooseValues self.now }
    {
        self.record.log_is_a_derivation();
        self.record.tree().generations_are_sound();
    }

    // How many possible agreements the behaviour has that is reached, of those of which every participant is expanded; all above the limit
    // comes to one more.
    fn offers(&self, alloc: Global) -> Result<u64, Memory>
        ensures { IfOk result (λ n. n ≡ limited (offers_of_tree (program self.now) (windows self.now) (tree self.now))) }
    {
        if let Some(index) = &self.index {
            return Ok(index.total());
        }
        self.log_is_a_derivation();
        let tree = self.record.tree().root();
        let composites = expanded_composites(alloc, &self.record.checked().algebra, tree)?;
        Ok(count_offers(self.record.checked(), &self.windows, tree, &composites))
    }

    /// Whether the job is to find what a node shows, and the behaviour has more than 1,048,576 possible agreements, of those of which every
    /// participant is expanded.
    pub fn is_too_much(&self, alloc: Global, task: &NodeJob) -> Result<bool, Memory>
        ensures many { IfOk result (λ many. IsTrue many → IsVerdict (job_of task.now) ×
            (offers_limit < offers_of_tree (program self.now) (windows self.now) (tree self.now))) }
        ensures few { IfOk result (λ many. many ≡ false → IsVerdict (job_of task.now) →
            offers_of_tree (program self.now) (windows self.now) (tree self.now) ≤ offers_limit) }
    {
        match task {
            NodeJob::Expand(_) => Ok(false),
            NodeJob::Judge(_, _) => Ok(self.offers(alloc)? > OFFERS_LIMIT),
        }
    }

    // The job, which the rules need, with what its node stands for.
    fn asked(&self, alloc: Global, task: &NodeJob) -> Result<Job, Memory>
        requires needed { IsOneOf (job_of task.now) (needed_at self.now) }
        requires looks { LooksForTrees (state self.now) }
        ensures job { IfOk result (λ job. job_of job.task ≡ job_of task.now) }
        ensures asked { IfOk result (IsAsked self.now) }
    {
        self.needed_jobs_live();
        self.needed_jobs_choose_values();
        let task = copy_job(alloc, task)?;
        let job = self.with_origin(alloc, task)?;
        Ok(job)
    }

    // The jobs with what their nodes stand for.
    fn with_origins(&self, alloc: Global, tasks: &[NodeJob]) -> Result<Vec<Job>, Memory>
        requires needed { Each (λ job. IsOneOf job (needed_at self.now)) (map job_of tasks.now) }
        requires looks { LooksForTrees (state self.now) }
        ensures those { IfOk result (λ jobs. map (λ job. job_of job.task) jobs.items ≡ map job_of tasks.now) }
        ensures each { IfOk result (λ jobs. Each (IsAsked self.now) jobs.items) }
    {
        let mut jobs = Vec::new(alloc);
        for task in tasks {
            jobs.push(self.asked(alloc, task)?)?;
        }
        Ok(jobs)
    }

    // The job, which is out from then on.
    fn hand_out(&mut self, alloc: Global, task: NodeJob) -> Result<Job, Memory>
        requires first { first_free self.old ≡ Some (job_of task) }
        requires looks { LooksForTrees (state self.old) }
        ensures task { IfOk result (λ job. job_of job.task ≡ job_of task) }
        ensures asked { IfOk result (IsAsked self.old) }
        ensures job { IfOk result (IsHandedOut self.old self.new) }
        ensures kept { OnErr result (self.new.out ≡ self.old.out) }
        ensures log { SameLog self.old self.new }
        ensures nodes { SameNodes self.old self.new }
        ensures session { SameSession self.old self.new }
        ensures stop { self.new.stop ≡ self.old.stop }
    {
        let job = self.asked(alloc, &task)?;
        self.out.push(task)?;
        Ok(job)
    }

    /// The first job that the rules still need and that isn't out, and at most `more` others, each once, all that one look finds. The first
    /// is out from then on, until what comes of it is handed in, or it is given back, or its node is gone; the others stay free. None where
    /// the rules need none that isn't out, and where the session has stopped. Where the first is to find what a node shows, and the behaviour
    /// has more than 1,048,576 possible agreements, of those of which every participant is expanded, there is none, and this stops the
    /// session.
    pub fn take_jobs(&mut self, alloc: Global, more: u8) -> Result<Option<Batch>, Memory>
        ensures job { IfOk result (λ o. IfSome o (λ b. IsHandedOut self.old self.new b.first × (self.new.stop ≡ self.old.stop))) }
        ensures asked { IfOk result (λ o. IfSome o (λ b. AreAsked self.old (suc more) (b.first ∷ b.others.items))) }
        ensures few { IfOk result (λ o. IfSome o (λ b. IsVerdict (job_of b.first.task) →
            offers_of_tree (program self.old) (windows self.old) (tree self.old) ≤ offers_limit)) }
        ensures none { IfOk result (λ o. IfNone o (WhyNone self.old self.new)) }
        ensures out { IfOk result (λ o. IfNone o (self.new.out ≡ self.old.out)) }
        ensures kept { OnErr result ((self.new.out ≡ self.old.out) × (self.new.stop ≡ self.old.stop)) }
        ensures log { SameLog self.old self.new }
        ensures nodes { SameNodes self.old self.new }
        ensures session { SameSession self.old self.new }
    {
        if !self.goes_on() {
            return Ok(None);
        }
        self.list_composites(alloc)?;
        match self.first_tasks(alloc, more)? {
            None => Ok(None),
            Some((task, tasks)) => {
                if self.is_too_much(alloc, &task)? {
                    self.stop = Some(StopReason::Limit(LimitKind::Offers));
                    return Ok(None);
                }
                let others = self.with_origins(alloc, &tasks)?;
                let first = self.hand_out(alloc, task)?;
                Ok(Some(Batch { first, others }))
            }
        }
    }

    /// The first job that the rules still need and that isn't out, as `take_jobs` says, and no other.
    pub fn take_job(&mut self, alloc: Global) -> Result<Option<Job>, Memory>
        ensures job { IfOk result (λ o. IfSome o (λ job. IsHandedOut self.old self.new job × (self.new.stop ≡ self.old.stop))) }
        ensures few { IfOk result (λ o. IfSome o (λ job. IsVerdict (job_of job.task) →
            offers_of_tree (program self.old) (windows self.old) (tree self.old) ≤ offers_limit)) }
        ensures none { IfOk result (λ o. IfNone o (WhyNone self.old self.new)) }
        ensures out { IfOk result (λ o. IfNone o (self.new.out ≡ self.old.out)) }
        ensures kept { OnErr result ((self.new.out ≡ self.old.out) × (self.new.stop ≡ self.old.stop)) }
        ensures log { SameLog self.old self.new }
        ensures nodes { SameNodes self.old self.new }
        ensures session { SameSession self.old self.new }
    {
        match self.take_jobs(alloc, 0)? {
            None => Ok(None),
            Some(Batch { first, .. }) => Ok(Some(first)),
        }
    }

    /// The job is free again. It takes no memory.
    pub fn give_back(&mut self, task: &NodeJob)
        ensures out { map job_of self.new.out ≡ left_out (job_of task.now) (map job_of self.old.out) }
        ensures log { SameLog self.old self.new }
        ensures nodes { SameNodes self.old self.new }
        ensures session { SameSession self.old self.new }
        ensures stop { self.new.stop ≡ self.old.stop }
    {
        self.out.retain(|other| !is_same(other, task));
    }

    /// No job is out from now on. It takes no memory.
    pub fn give_back_all(&mut self)
        ensures out { self.new.out ≡ [] }
        ensures log { SameLog self.old self.new }
        ensures nodes { SameNodes self.old self.new }
        ensures session { SameSession self.old self.new }
        ensures stop { self.new.stop ≡ self.old.stop }
    {
        self.out.clear();
    }

    // Whether the node of a generation lives and waits for its expansion.
    fn waits(&self, generation: Gen) -> bool
        ensures { IsTrue result ↔ Waits (tree self.now) generation.0 }
    {
        match self.record.tree().at(generation) {
            None => false,
            Some(node) => node.waits(),
        }
    }

    /// Whether the node of a generation lives; then it has begun. It takes no memory.
    pub fn lives(&self, generation: Gen) -> bool
        ensures lives { IsTrue result ↔ Lives (tree self.now) generation.0 }
        ensures begun { IsTrue result → generation.0 < self.now.session.tree.next }
    {
        self.record.tree().at(generation).is_some()
    }

    /// Whether the node of a generation lives and stands for this origin. Whoever did a job without the board learns by this call whether what
    /// was found is of a node of the board. It takes no memory.
    pub fn has_origin(&self, generation: Gen, origin: &Origin) -> bool
        ensures has { IsTrue result ↔ HasOrigin (tree self.now) generation.0 (source_of origin.now) }
        ensures origin { IsTrue result → (n : Held) → IsNodeOf (tree self.now) generation.0 n → n.source ≡ source_of origin.now }
    {
        match self.record.tree().at(generation) {
            None => false,
            Some(node) => is_same_origin(&node.origin, origin),
        }
    }

    /// The expansion of a node. It is stale exactly where no live node that waits has the generation. It takes no memory.
    pub fn post(&mut self, generation: Gen, work: Expansion) -> Post
        requires work { (n : Held) → IsNodeOf (tree self.old) generation.0 n →
            IsWorkAt (program self.old) (windows self.old) n.source (expansion_of work) }
        ensures posted { result ≡ Post.Posted → Waits (tree self.old) generation.0 ×
            (tree self.new ≡ posted generation.0 (expansion_of work) (tree self.old)) }
        ensures stale { result ≡ Post.Stale → (Waits (tree self.old) generation.0 → ⊥) × (tree self.new ≡ tree self.old) }
        ensures out { result ≡ Post.Posted → map job_of self.new.out ≡ left_out (to_expand generation.0) (map job_of self.old.out) }
        ensures kept { result ≡ Post.Stale → self.new.out ≡ self.old.out }
        ensures pieces { self.new.pieces ≡ self.old.pieces }
        ensures next { self.new.session.tree.next ≡ self.old.session.tree.next }
        ensures nodes { KeepsNodes self.old self.new }
        ensures log { SameLog self.old self.new }
        ensures session { SameSession self.old self.new }
        ensures stop { self.new.stop ≡ self.old.stop }
    {
        if !self.waits(generation) {
            return Post::Stale;
        }
        self.record.post(generation, work);
        self.index = None;
        self.give_back(&NodeJob::Expand(generation));
        Post::Posted
    }

    /// What a node shows by a tree of rules. It is stale exactly where the generation doesn't live.
    pub fn judged(&mut self, alloc: Global, piece: Piece) -> Result<Post, Memory>
        requires piece { IsPieceOf (program self.old) (windows self.old) piece (tree self.old) }
        ensures posted { IfOk result (λ post. post ≡ Post.Posted → Lives (tree self.old) piece.generation.0 ×
            ((g : ℕ) (d : Derivation) → pieces self.new g d ≡ with_piece (pieces self.old) piece g d)) }
        ensures stale { IfOk result (λ post. post ≡ Post.Stale → (Lives (tree self.old) piece.generation.0 → ⊥) ×
            (self.new.pieces ≡ self.old.pieces)) }
        ensures out { IfOk result (λ post. post ≡ Post.Posted → map job_of self.new.out ≡
            left_out (to_judge (node_part piece.generation.0 (derivation_of piece.rules))) (map job_of self.old.out)) }
        ensures unmoved { IfOk result (λ post. post ≡ Post.Stale → self.new.out ≡ self.old.out) }
        ensures kept { OnErr result (self.new.out ≡ self.old.out) }
        ensures known { OnErr result ((g : ℕ) (d : Derivation) → pieces self.new g d ≡ pieces self.old g d) }
        ensures tree { tree self.new ≡ tree self.old }
        ensures nodes { KeepsNodes self.old self.new }
        ensures log { SameLog self.old self.new }
        ensures session { SameSession self.old self.new }
        ensures stop { self.new.stop ≡ self.old.stop }
    {
        if !self.lives(piece.generation) {
            return Ok(Post::Stale);
        }
        let task = NodeJob::Judge(piece.generation, piece.rules.copy(alloc)?);
        self.pieces.put(piece)?;
        self.give_back(&task);
        Ok(Post::Posted)
    }

    // Whether what the job is to find isn't known yet.
    fn is_free(&self, task: &NodeJob) -> bool
        ensures { IsTrue result ↔ IsFree (tree self.now) (job_of task.now) }
    {
        match task {
            NodeJob::Expand(generation) => self.waits(*generation),
            NodeJob::Judge(generation, _) => self.lives(*generation),
        }
    }

    /// A job has no answer, for this reason, which is so in the state that is reached, and stops the session, unless another has. It is stale
    /// where its node is gone, or, for an expansion, is expanded already. It takes no memory.
    pub fn fail(&mut self, task: &NodeJob, reason: StopReason) -> Post
        requires reason { IsFree (tree self.old) (job_of task.now) →
            IsReasonToStop (program self.old) self.old.settings (state self.old) reason }
        ensures posted { result ≡ Post.Posted → IsFree (tree self.old) (job_of task.now) × (self.new.stop ≡ first_reason self.old.stop reason) }
        ensures stale { result ≡ Post.Stale → (IsFree (tree self.old) (job_of task.now) → ⊥) × (self.new.stop ≡ self.old.stop) }
        ensures out { result ≡ Post.Posted → map job_of self.new.out ≡ left_out (job_of task.now) (map job_of self.old.out) }
        ensures kept { result ≡ Post.Stale → self.new.out ≡ self.old.out }
        ensures log { SameLog self.old self.new }
        ensures nodes { SameNodes self.old self.new }
        ensures session { SameSession self.old self.new }
    {
        if !self.is_free(task) {
            return Post::Stale;
        }
        if self.stop.is_none() {
            self.stop = Some(reason);
        }
        self.give_back(task);
        Post::Posted
    }
}
