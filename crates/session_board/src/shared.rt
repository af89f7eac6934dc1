// What is behind the lock of a session.

ghost use Rattle.std.specs.Prelude.{◌≡◌, ◌≤◌, [], IfErr, IfNone, IfOk, IfSome, IsErrOf, None, OnErr, OnOk, false, length, map};
ghost use Rattle.rule_model.specs.Events.{left, pended};
ghost use Rattle.board_core.specs.JobValues.{GivesValues};
ghost use Rattle.board_core.specs.Origins.{source_of};
ghost use Rattle.candidates.specs.Models.{job_of};
ghost use Rattle.board_core.specs.Views.{events, program, tree, windows};
ghost use Rattle.board_core.specs.Working.{left_out};
ghost use Rattle.board_work.specs.Handed.{ChangesNothing, IsInTime, IsTakenIn};
ghost use Rattle.board_work.specs.Outcomes.{IsOutcome};
ghost use Rattle.session_board.specs.Answers.{AnswersAll, IsSpot};
ghost use Rattle.session_board.specs.Faults.{ExplainsNoLeave, ExplainsNoOffer, HasntLeft, MayBeMade};
ghost use Rattle.session_board.specs.Growing.{GrowsByNone, GrowsByOne};
ghost use Rattle.session_board.specs.Lines.{events_in};
ghost use Rattle.session_board.specs.Looks.{ComesOfLook, ComesOfWork, IsStepOfLook, IsUnanswered, LooksOn, LooksOnAtLast, HandsInAndLooks};
ghost use Rattle.session_board.specs.declared.shared.Look.TheVariants.{Answered};
ghost use Rattle.session_board.specs.Shared.{fixed_part, lines, HasDrivenLog, IsMarked};
ghost use Rattle.session_board.specs.Turning.{ComesOfTurn, HasNothingToDo};

use crate::answers::{answer_from, end_from};
use crate::fixed::FixedPart;
use crate::line::Line;
use crate::spot::Spot;
use crate::turning::{Turn, one_step};
use board_core::board::Board;
use board_core::job::Job;
use board_record::{LeaveFault, PendFault};
use board_work::handing_in::hand_in;
use board_work::outcome::Outcome;
use rule_model::log::Entry;
use rule_model::offer::Offer;
use rule_model::reply::Reply;
use spec_core::memory::Memory;
use std::alloc::Global;
use std::marker::Model;
use turn_lock::Standing;

/// A job that was handed out, with its number: from 1 on, in the order in which they were; after 2^64 - 1 jobs it rises no further.
#[derive(Drop)]
pub struct TakenJob {
    pub number: u64,
    pub job: Job,
}

/// What a client finds in a turn.
#[derive(Drop)]
pub enum Look {
    /// The answer to its offer.
    Answered(Reply),
    /// No answer yet, and a job.
    Free(TakenJob),
    /// No answer yet, and an entry was appended.
    Settled,
    /// No answer yet, and nothing to do now.
    Idle,
}

impl Look {
    // Whether an entry was appended.
    fn is_settled(&self) -> bool {
        match self {
            Look::Answered(_) => false,
            Look::Free(_) => false,
            Look::Settled => true,
            Look::Idle => false,
        }
    }
}

/// What a worker finds in a turn.
#[derive(Drop)]
pub enum Work {
    /// A job.
    Free(TakenJob),
    /// An entry was appended.
    Settled,
    /// There is nothing to do now, and a client is open.
    Idle,
    /// There is nothing to do, and no client is open.
    Over,
}

/// What is behind the lock: the board, how many jobs it has handed out, whether a turn met want of memory, and whether the last turn found
/// nothing to do, so that the next one needn't look again. Contracts see the board and whether memory was wanting. Its log is driven, whatever
/// threads did in whatever order.
#[derive(Drop)]
pub struct SharedBoard {
    board: Board,
    jobs: u64,
    halted: bool,
    is_idle: bool,
}

impl Model for SharedBoard {
    ghost use Rattle.std.specs.Coded.{codes};
    ghost use Rattle.board_core.specs.contracts.board.Board as b;
    ghost use Rattle.session_board.specs.Shared.{SharedView, IsSound};

    ghost Value = { SharedView };

    ghost coded = { Prim.hlevel (codes, b.the_row.coded) };

    ghost view = { λ s. record { board = s.board; halted = s.halted } };

    ghost invariant = { λ s. IsSound s.board s.is_idle };
}

impl Standing for SharedBoard {
    ghost use Rattle.session_board.specs.Lines.{maker_of};
    ghost use Rattle.session_board.specs.Shared.{fixed_part, lines};

    type Entry = Line;

    type Fixed = FixedPart;

    ghost list = { lines };

    ghost fixed = { fixed_part };

    ghost maker = { maker_of };

    fn length(&self) -> u64 {
        let happened = self.board.log().len() as u64;
        if self.halted { happened + 1 } else { happened }
    }
}

impl SharedBoard {
    /// A board on which nothing happened yet.
    pub fn new(board: Board) -> SharedBoard
        requires new { events board ≡ [] }
        requires stop { board.stop ≡ None }
        ensures board { result.board ≡ board }
        ensures lines { lines result ≡ [] }
    {
        board.log_is_a_derivation();
        SharedBoard {
            board,
            jobs: 0,
            halted: false,
            is_idle: false,
        }
    }

    /// Whether a turn met want of memory. It takes no memory.
    pub fn is_halted(&self) -> bool
        ensures { result ≡ self.now.halted }
    {
        self.halted
    }

    /// A client makes its next offer, or asks for it; its number, and the spot behind this, where the client stood at another one before.
    /// What the offer gives are values. Want of memory is marked.
    pub fn pend(
        &mut self,
        alloc: Global,
        client: u32,
        offer: &Offer,
        ask: bool,
        from: Spot,
    ) -> Result<(u64, Spot), PendFault>
        requires running { self.old.halted ≡ false }
        requires client { (1 ≤ client) × (client ≤ self.old.board.session.clients) }
        requires spot { IsSpot (lines self.old) from }
        requires values { GivesValues (program self.old.board).theory offer.now }
        ensures pended { IfOk result (λ r. GrowsByOne self.old self.new (pended client r.0 offer.now ask)) }
        ensures spot { IfOk result (λ r. IsSpot (lines self.new) r.1 × (r.1.lines ≡ length (lines self.new))) }
        ensures none { OnErr result (GrowsByNone self.old self.new) }
        ensures may { OnOk result (MayBeMade self.old client offer.now) }
        ensures fault { IfErr result (ExplainsNoOffer self.old self.new client offer.now) }
        ensures unmarked { IsMarked self.new → IsErrOf result PendFault.Memory }
        ensures fixed { fixed_part self.new ≡ fixed_part self.old }
    {
        self.is_idle = false;
        match self.board.pend(alloc, client, offer, ask) {
            Ok(number) => Ok((number, self.end(from))),
            Err(PendFault::Memory) => {
                self.halted = true;
                Err(PendFault::Memory)
            }
            Err(PendFault::NotOpen) => Err(PendFault::NotOpen),
            Err(PendFault::AlreadyPending) => Err(PendFault::AlreadyPending),
            Err(PendFault::NoSuchGate) => Err(PendFault::NoSuchGate),
        }
    }

    /// A client leaves; the spot behind this, where it stood at another one before. Want of memory is marked.
    pub fn leave(&mut self, alloc: Global, client: u32, from: Spot) -> Result<Spot, LeaveFault>
        requires running { self.old.halted ≡ false }
        requires client { (1 ≤ client) × (client ≤ self.old.board.session.clients) }
        requires spot { IsSpot (lines self.old) from }
        ensures left { OnOk result (GrowsByOne self.old self.new (left client)) }
        ensures answered { OnOk result (AnswersAll client (events_in (lines self.new))) }
        ensures spot { IfOk result (λ spot. IsSpot (lines self.new) spot × (spot.lines ≡ length (lines self.new))) }
        ensures none { OnErr result (GrowsByNone self.old self.new) }
        ensures may { OnOk result (HasntLeft self.old client) }
        ensures fault { IfErr result (ExplainsNoLeave self.old self.new client) }
        ensures unmarked { IsMarked self.new → IsErrOf result LeaveFault.Memory }
        ensures fixed { fixed_part self.new ≡ fixed_part self.old }
    {
        self.is_idle = false;
        match self.board.leave(alloc, client) {
            Ok(()) => Ok(self.end(from)),
            Err(LeaveFault::Memory) => {
                self.halted = true;
                Err(LeaveFault::Memory)
            }
            Err(LeaveFault::NotOpen) => Err(LeaveFault::NotOpen),
            Err(LeaveFault::Pending) => Err(LeaveFault::Pending),
        }
    }

    // The spot behind all that happened, found from another one on.
    fn end(&self, from: Spot) -> Spot
        requires spot { IsSpot (lines self.now) from }
        requires running { self.now.halted ≡ false }
        ensures spot { IsSpot (lines self.now) result }
        ensures last { result.lines ≡ length (lines self.now) }
    {
        end_from(&self.board.log()[from.lines as usize..], from)
    }

    // One step of the session. Where it finds nothing to do, and nothing stops the session, the next one would find the same. Want of memory
    // is marked.
    fn step(&mut self, alloc: Global) -> Result<Turn, Memory>
        requires running { self.old.halted ≡ false }
        ensures turn { IfOk result (ComesOfTurn self.old.board self.new.board) }
        ensures driven { HasDrivenLog self.new.board }
        ensures running { OnOk result (self.new.halted ≡ false) }
        ensures marked { OnErr result (IsMarked self.new) }
        ensures none { GrowsByNone self.old self.new }
        ensures fixed { fixed_part self.new ≡ fixed_part self.old }
    {
        self.is_idle = false;
        let before = self.board.stopped();
        match one_step(alloc, &mut self.board) {
            Ok(turn) => {
                let after = self.board.stopped();
                self.is_idle = turn.rests(before, after);
                Ok(turn)
            }
            Err(Memory) => {
                self.halted = true;
                Err(Memory)
            }
        }
    }

    // The job with its number.
    fn numbered(&mut self, job: Job) -> TakenJob
        ensures same { self.new ≡ self.old }
        ensures job { result.job ≡ job }
    {
        self.jobs = self.jobs.saturating_add(1);
        TakenJob {
            number: self.jobs,
            job,
        }
    }
}

impl SharedBoard {
    // How the offer of a name is answered behind a spot, and where; or the spot behind all that happened. The answer is copied.
    fn answer(
        &self,
        alloc: Global,
        name: (u32, u64),
        spot: Spot,
    ) -> Result<(Spot, Option<Reply>), Memory>
        requires spot { IsSpot (lines self.now) spot }
        requires running { self.now.halted ≡ false }
        ensures spot { IfOk result (λ r. IsSpot (lines self.now) r.0 × (spot.lines ≤ r.0.lines)) }
        ensures answered { IfOk result (λ r. IfSome r.1 (λ reply. ComesOfLook (lines self.now) name r.0 (Answered reply))) }
        ensures none { IfOk result (λ r. IfNone r.1 (IsUnanswered self.now name spot)) }
    {
        let log: &[Entry] = self.board.log();
        let (place, answered) = answer_from(&log[spot.lines as usize..], name, spot);
        match answered {
            None => Ok((place, None)),
            Some(answered) => {
                let reply = answered.to_reply(alloc)?;
                Ok((place, Some(reply)))
            }
        }
    }

    // What a worker finds where nothing is to be done.
    fn rest(&self) -> Work
        requires idle { HasNothingToDo self.now.board self.now.board }
        ensures { ComesOfWork self.now self.now result }
    {
        if self.board.open_clients() == 0 {
            Work::Over
        } else {
            Work::Idle
        }
    }

    // What a client finds where its offer isn't answered yet: one step of the session.
    fn look_on(&mut self, alloc: Global) -> Result<Look, Memory>
        requires running { self.old.halted ≡ false }
        ensures step { IfOk result (IsStepOfLook self.old.board self.new.board) }
        ensures unmarked { OnOk result (self.new.halted ≡ false) }
        ensures marked { OnErr result (IsMarked self.new) }
        ensures none { GrowsByNone self.old self.new }
        ensures fixed { fixed_part self.new ≡ fixed_part self.old }
    {
        if self.is_idle {
            return Ok(Look::Idle);
        }
        match self.step(alloc)? {
            Turn::Free(job) => Ok(Look::Free(self.numbered(job))),
            Turn::Settled => Ok(Look::Settled),
            Turn::Idle => Ok(Look::Idle),
            Turn::Over => Ok(Look::Idle),
        }
    }

    /// A client looks for the answer to the offer of a name, behind a spot. Where there is none yet it does one step of the session, and
    /// stands behind all that had happened before. Want of memory is marked; once it is, the answer is want of memory.
    pub fn look(
        &mut self,
        alloc: Global,
        name: (u32, u64),
        spot: Spot,
    ) -> Result<(Spot, Look), Memory>
        requires spot { IsSpot (lines self.old) spot }
        ensures spot { IfOk result (λ r. IsSpot (lines self.new) r.0 × (spot.lines ≤ r.0.lines)) }
        ensures found { IfOk result (λ r. ComesOfLook (lines self.new) name r.0 r.1) }
        ensures step { IfOk result (λ r. LooksOn self.old self.new name spot r.1) }
        ensures running { OnOk result (self.old.halted ≡ false) }
        ensures unmarked { OnOk result (self.new.halted ≡ false) }
        ensures marked { OnErr result (IsMarked self.new) }
        ensures none { GrowsByNone self.old self.new }
        ensures fixed { fixed_part self.new ≡ fixed_part self.old }
    {
        if self.halted {
            return Err(Memory);
        }
        match self.answer(alloc, name, spot) {
            Err(Memory) => {
                self.halted = true;
                Err(Memory)
            }
            Ok((place, Some(reply))) => Ok((place, Look::Answered(reply))),
            Ok((place, None)) => {
                let look = self.look_on(alloc)?;
                Ok((place, look))
            }
        }
    }

    /// As `look`; but where an entry was appended, the client looks again, up to so many times more.
    pub fn look_along(
        &mut self,
        alloc: Global,
        name: (u32, u64),
        spot: Spot,
        more: u32,
    ) -> Result<(Spot, Look), Memory>
        requires spot { IsSpot (lines self.old) spot }
        ensures spot { IfOk result (λ r. IsSpot (lines self.new) r.0 × (spot.lines ≤ r.0.lines)) }
        ensures found { IfOk result (λ r. ComesOfLook (lines self.new) name r.0 r.1) }
        ensures step { IfOk result (λ r. LooksOnAtLast self.old self.new name r.1) }
        ensures running { OnOk result (self.old.halted ≡ false) }
        ensures unmarked { OnOk result (self.new.halted ≡ false) }
        ensures marked { OnErr result (IsMarked self.new) }
        ensures none { GrowsByNone self.old self.new }
        ensures fixed { fixed_part self.new ≡ fixed_part self.old }
    {
        let (place, look) = self.look(alloc, name, spot)?;
        if more == 0 || !look.is_settled() {
            return Ok((place, look));
        }
        self.look_along(alloc, name, place, more - 1)
    }

    /// Hands in what came of a job, as `hand_in`, and then looks along for the answer to an offer, as `look_along`.
    pub fn hand_in_and_look(
        &mut self,
        alloc: Global,
        job: Job,
        outcome: Result<Outcome, Memory>,
        name: (u32, u64),
        spot: Spot,
        more: u32,
    ) -> Result<(Spot, Look), Memory>
        requires outcome { IfOk outcome (IsOutcome (program self.old.board) (windows self.old.board) self.old.board.settings.budget job) }
        requires spot { IsSpot (lines self.old) spot }
        ensures spot { IfOk result (λ r. IsSpot (lines self.new) r.0 × (spot.lines ≤ r.0.lines)) }
        ensures found { IfOk result (λ r. ComesOfLook (lines self.new) name r.0 r.1) }
        ensures handed { IfOk result (λ r. HandsInAndLooks self.old self.new job outcome name r.1) }
        ensures step { IfOk result (λ r. LooksOnAtLast self.old self.new name r.1) }
        ensures running { OnOk result (self.old.halted ≡ false) }
        ensures unmarked { OnOk result (self.new.halted ≡ false) }
        ensures marked { OnErr result (IsMarked self.new) }
        ensures none { GrowsByNone self.old self.new }
        ensures fixed { fixed_part self.new ≡ fixed_part self.old }
    {
        self.hand_in(alloc, job, outcome)?;
        self.look_along(alloc, name, spot, more)
    }

    /// One step of the session for a worker; a job has its number. Want of memory is marked; once it is, the answer is want of memory.
    pub fn work(&mut self, alloc: Global) -> Result<Work, Memory>
        ensures work { IfOk result (ComesOfWork self.old self.new) }
        ensures running { OnOk result (self.old.halted ≡ false) }
        ensures unmarked { OnOk result (self.new.halted ≡ false) }
        ensures marked { OnErr result (IsMarked self.new) }
        ensures none { GrowsByNone self.old self.new }
        ensures fixed { fixed_part self.new ≡ fixed_part self.old }
    {
        if self.halted {
            return Err(Memory);
        }
        if self.is_idle {
            return Ok(self.rest());
        }
        match self.step(alloc)? {
            Turn::Free(job) => Ok(Work::Free(self.numbered(job))),
            Turn::Settled => Ok(Work::Settled),
            Turn::Idle => Ok(Work::Idle),
            Turn::Over => Ok(Work::Over),
        }
    }

    // Takes in what came of a job. Want of memory is marked.
    fn take_in(&mut self, alloc: Global, job: Job, outcome: Outcome) -> Result<(), Memory>
        requires running { self.old.halted ≡ false }
        requires outcome { IsOutcome (program self.old.board) (windows self.old.board) self.old.board.settings.budget job outcome }
        ensures taken { OnOk result (IsInTime (tree self.old.board) (source_of job.origin) (job_of job.task) →
            IsTakenIn self.old.board self.new.board (job_of job.task) outcome) }
        ensures late { (IsInTime (tree self.old.board) (source_of job.origin) (job_of job.task) → ⊥) →
            ChangesNothing self.old.board self.new.board }
        ensures out { OnOk result (map job_of self.new.board.out ≡ left_out (job_of job.task) (map job_of self.old.board.out)) }
        ensures unmarked { OnOk result (self.new.halted ≡ false) }
        ensures marked { OnErr result (IsMarked self.new) }
        ensures none { GrowsByNone self.old self.new }
        ensures fixed { fixed_part self.new ≡ fixed_part self.old }
    {
        self.is_idle = false;
        match hand_in(alloc, &mut self.board, job, outcome) {
            Ok(()) => Ok(()),
            Err(Memory) => {
                self.halted = true;
                Err(Memory)
            }
        }
    }

    /// Hands in what came of a job, or that it met want of memory. Want of memory is marked; once it is, nothing is handed in, and the answer
    /// is want of memory.
    pub fn hand_in(
        &mut self,
        alloc: Global,
        job: Job,
        outcome: Result<Outcome, Memory>,
    ) -> Result<(), Memory>
        requires outcome { IfOk outcome (IsOutcome (program self.old.board) (windows self.old.board) self.old.board.settings.budget job) }
        ensures taken { OnOk result (IfOk outcome (λ outcome. IsInTime (tree self.old.board) (source_of job.origin) (job_of job.task) →
            IsTakenIn self.old.board self.new.board (job_of job.task) outcome)) }
        ensures late { (IsInTime (tree self.old.board) (source_of job.origin) (job_of job.task) → ⊥) →
            ChangesNothing self.old.board self.new.board }
        ensures out { OnOk result (map job_of self.new.board.out ≡ left_out (job_of job.task) (map job_of self.old.board.out)) }
        ensures running { OnOk result (self.old.halted ≡ false) }
        ensures unmarked { OnOk result (self.new.halted ≡ false) }
        ensures wanting { OnErr outcome (IsMarked self.new) }
        ensures marked { OnErr result (IsMarked self.new) }
        ensures none { GrowsByNone self.old self.new }
        ensures fixed { fixed_part self.new ≡ fixed_part self.old }
    {
        if self.halted {
            return Err(Memory);
        }
        match outcome {
            Ok(outcome) => self.take_in(alloc, job, outcome),
            Err(Memory) => {
                self.halted = true;
                Err(Memory)
            }
        }
    }

    /// The board, unless a turn met want of memory.
    pub fn into_board(self) -> Result<Board, Memory>
        ensures { IfOk result (λ board. (board ≡ self.board) × (self.halted ≡ false) × HasDrivenLog board) }
    {
        let SharedBoard {
            board,
            jobs: _,
            halted,
            is_idle: _,
        } = self;
        if halted { Err(Memory) } else { Ok(board) }
    }
}
