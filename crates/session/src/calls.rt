// What a client calls.

ghost use Rattle.std.specs.Prelude.{◌≡◌, ◌≤◌, IfErr, IfOk, IfSome, IsErrOf, OnErr, OnOk, false, length, true};
ghost use Rattle.spec_core.specs.Code.{program_of};
ghost use Rattle.rule_model.specs.Answers.{answer_of};
ghost use Rattle.rule_model.specs.Events.{left, pended};
ghost use Rattle.board_core.specs.JobValues.{GivesValues};
ghost use Rattle.turn_lock.specs.Entries.{Begins};
ghost use Rattle.turn_lock.specs.Seats.{IsAtRest};
ghost use Rattle.session_board.specs.declared.shared.Look.TheVariants.{Answered};
ghost use Rattle.session_board.specs.Answers.{AnswersAll, IsSpot};
ghost use Rattle.session_board.specs.Lines.{events_in};
ghost use Rattle.session_board.specs.Looks.{ComesOfLook};
ghost use Rattle.session.specs.Calls.{ExplainsCall, ExplainsCallBy, ExplainsLeaving, ExplainsLeavingBy, HasItsLines, HasMade, HasSeenMore};
ghost use Rattle.session.specs.Calls.{IsIdleSeat, MakesNone, MayCall, MayCallBy, StaysSeat};
ghost use Rattle.session.specs.Passes.{HasHalted, HasLeft, HasLeftBy, KnowsAnswer, KnowsLeave, SamePass, knows};
ghost use Rattle.session.specs.Sessions.{FitsJob, IsClientOf, IsGiven};
ghost use Rattle.session.specs.Working.{OnLook};

use crate::pass::Pass;
use crate::session::Session;
use board_core::{Evaluator, Prepared};
use board_record::{LeaveFault, PendFault};
use board_work::outcome::Outcome;
use board_work::performing::perform;
use crossbeam_utils::Backoff;
use rule_model::offer::Offer;
use rule_model::reply::Reply;
use session_board::shared::{Look, SharedBoard, TakenJob};
use session_board::spot::Spot;
use spec_core::memory::Memory;
use std::sync::Wait;
use thiserror::Error;
use turn_lock::TurnSeat;

// How many entries a client appends at most, before it passes the turn on, where it looks for its answer.
const ENTRIES_IN_A_TURN: u32 = 16;

/// Why a client's call does nothing.
#[derive(Debug, Drop, Error)]
pub enum CallFault {
    /// The client has left.
    #[error("the client has left")]
    Left,
    /// The gate isn't the specification's.
    #[error("no such gate")]
    NoSuchGate,
    /// There is no memory, or a turn met want of memory earlier.
    #[error("no memory")]
    Memory,
}

impl Session {
    // The client makes its offer, or asks for it, in a turn; its number, and where it stands then.
    pub(crate) fn post<R: Wait>(
        &self,
        rt: &R,
        seat: &mut TurnSeat<SharedBoard>,
        client: u32,
        offer: &Offer,
        ask: bool,
        from: Spot,
    ) -> Result<(u64, Spot), CallFault>
        requires rests { IsAtRest self.now.lock.id seat.old }
        requires client { client ≤ self.now.lock.fixed.clients }
        requires idle { IsIdleSeat seat.old client }
        requires spot { IsSpot seat.old.seen from }
        requires values { GivesValues (program_of self.now.lock.fixed.checked).theory offer.now }
        ensures stays { StaysSeat seat.old seat.new }
        ensures own { HasItsLines seat.new }
        ensures made { IfOk result (λ r. HasMade seat.old seat.new (pended client r.0 offer.now ask)) }
        ensures spot { IfOk result (λ r. IsSpot seat.new.seen r.1 × (r.1.lines ≡ length seat.new.seen)) }
        ensures none { OnErr result (HasSeenMore seat.old seat.new) }
        ensures may { OnOk result (MayCallBy self.now client seat.old.own offer.now) }
        ensures fault { IfErr result (ExplainsCallBy self.now client seat.old.own seat.new.seen offer.now) }
        ensures halted { HasHalted seat.new.seen → IsErrOf result CallFault.Memory }
    {
        let mut held = self.turns.take(rt, seat);
        if held.value.is_halted() {
            self.turns.give(seat, held);
            return Err(CallFault::Memory);
        }
        let posted = held.value.pend(self.alloc, client, offer, ask, from);
        self.turns.give(seat, held);
        match posted {
            Ok(made) => Ok(made),
            Err(PendFault::NotOpen) => Err(CallFault::Left),
            Err(PendFault::AlreadyPending) => unreachable!(),
            Err(PendFault::NoSuchGate) => Err(CallFault::NoSuchGate),
            Err(PendFault::Memory) => Err(CallFault::Memory),
        }
    }

    // Looks for the answer to an offer, in a turn.
    pub(crate) fn look<R: Wait>(
        &self,
        rt: &R,
        seat: &mut TurnSeat<SharedBoard>,
        name: (u32, u64),
        spot: Spot,
    ) -> Result<(Spot, Look), Memory>
        requires rests { IsAtRest self.now.lock.id seat.old }
        requires spot { IsSpot seat.old.seen spot }
        ensures stays { StaysSeat seat.old seat.new }
        ensures own { HasItsLines seat.new }
        ensures none { HasSeenMore seat.old seat.new }
        ensures spot { IfOk result (λ r. IsSpot seat.new.seen r.0 × (spot.lines ≤ r.0.lines)) }
        ensures found { IfOk result (λ r. ComesOfLook seat.new.seen name r.0 r.1) }
        ensures given { IfOk result (λ r. OnLook (IsGiven self.now) r.1) }
        ensures running { OnOk result (HasHalted seat.new.seen → ⊥) }
        ensures marked { OnErr result (HasHalted seat.new.seen) }
    {
        let mut held = self.turns.take(rt, seat);
        let look = held
            .value
            .look_along(self.alloc, name, spot, ENTRIES_IN_A_TURN);
        self.turns.give(seat, held);
        look
    }

    // Hands in what came of a job, and looks for the answer to an offer, in one turn.
    fn hand_in_and_look<R: Wait>(
        &self,
        rt: &R,
        seat: &mut TurnSeat<SharedBoard>,
        taken: TakenJob,
        outcome: Result<Outcome, Memory>,
        name: (u32, u64),
        spot: Spot,
    ) -> Result<(Spot, Look), Memory>
        requires rests { IsAtRest self.now.lock.id seat.old }
        requires outcome { IfOk outcome (FitsJob self.now taken) }
        requires spot { IsSpot seat.old.seen spot }
        ensures stays { StaysSeat seat.old seat.new }
        ensures own { HasItsLines seat.new }
        ensures none { HasSeenMore seat.old seat.new }
        ensures spot { IfOk result (λ r. IsSpot seat.new.seen r.0 × (spot.lines ≤ r.0.lines)) }
        ensures found { IfOk result (λ r. ComesOfLook seat.new.seen name r.0 r.1) }
        ensures given { IfOk result (λ r. OnLook (IsGiven self.now) r.1) }
        ensures running { OnOk result (HasHalted seat.new.seen → ⊥) }
        ensures marked { OnErr result (HasHalted seat.new.seen) }
    {
        let TakenJob { number: _, job } = taken;
        let mut held = self.turns.take(rt, seat);
        let look = held
            .value
            .hand_in_and_look(self.alloc, job, outcome, name, spot, ENTRIES_IN_A_TURN);
        self.turns.give(seat, held);
        look
    }

    // Hands in what came of a job, in a turn.
    pub(crate) fn hand_in<R: Wait>(
        &self,
        rt: &R,
        seat: &mut TurnSeat<SharedBoard>,
        taken: TakenJob,
        outcome: Result<Outcome, Memory>,
    ) -> Result<(), Memory>
        requires rests { IsAtRest self.now.lock.id seat.old }
        requires outcome { IfOk outcome (FitsJob self.now taken) }
        ensures stays { StaysSeat seat.old seat.new }
        ensures own { HasItsLines seat.new }
        ensures none { HasSeenMore seat.old seat.new }
        ensures running { OnOk result (HasHalted seat.new.seen → ⊥) }
        ensures wanting { OnErr outcome (HasHalted seat.new.seen) }
        ensures marked { OnErr result (HasHalted seat.new.seen) }
        ensures still { HasHalted seat.old.seen → HasHalted seat.new.seen }
    {
        let TakenJob { number: _, job } = taken;
        let mut held = self.turns.take(rt, seat);
        let handed = held.value.hand_in(self.alloc, job, outcome);
        self.turns.give(seat, held);
        handed
    }

    // Does a job without the turn.
    pub(crate) fn do_job(&self, taken: &TakenJob) -> Result<Outcome, Memory>
        requires given { IsGiven self.now taken.now }
        ensures { IfOk result (FitsJob self.now taken.now) }
    {
        let prepared = Prepared {
            checked: &self.checked,
            evaluator: Evaluator::new(&self.checked.algebra, &self.forms),
        };
        perform(
            self.alloc,
            &prepared,
            &self.windows,
            &taken.job,
            self.settings.budget,
        )
    }

    // Does what a look found, unless it is the answer, and looks again: a job; or nothing, then it waits a little.
    fn look_again<R: Wait>(
        &self,
        rt: &R,
        seat: &mut TurnSeat<SharedBoard>,
        name: (u32, u64),
        spot: Spot,
        look: Look,
        backoff: &Backoff,
    ) -> Result<(Spot, Look), Memory>
        requires rests { IsAtRest self.now.lock.id seat.old }
        requires spot { IsSpot seat.old.seen spot }
        requires given { OnLook (IsGiven self.now) look }
        ensures stays { StaysSeat seat.old seat.new }
        ensures own { HasItsLines seat.new }
        ensures none { HasSeenMore seat.old seat.new }
        ensures spot { IfOk result (λ r. IsSpot seat.new.seen r.0 × (spot.lines ≤ r.0.lines)) }
        ensures found { IfOk result (λ r. ComesOfLook seat.new.seen name r.0 r.1) }
        ensures given { IfOk result (λ r. OnLook (IsGiven self.now) r.1) }
        ensures running { OnOk result (HasHalted seat.new.seen → ⊥) }
        ensures marked { OnErr result (HasHalted seat.new.seen) }
    {
        match look {
            Look::Free(taken) => {
                let outcome = self.do_job(&taken);
                self.hand_in_and_look(rt, seat, taken, outcome, name, spot)
            }
            Look::Idle => {
                backoff.snooze();
                self.look(rt, seat, name, spot)
            }
            Look::Settled | Look::Answered(_) => self.look(rt, seat, name, spot),
        }
    }

    // Looks, turn by turn, until an offer is answered, and does jobs meanwhile. The spot at which the answer ends, and the answer.
    fn await_answer<R: Wait>(
        &self,
        rt: &R,
        seat: &mut TurnSeat<SharedBoard>,
        name: (u32, u64),
        from: Spot,
    ) -> Result<(Spot, Reply), Memory>
        requires rests { IsAtRest self.now.lock.id seat.old }
        requires spot { IsSpot seat.old.seen from }
        ensures stays { StaysSeat seat.old seat.new }
        ensures own { OnOk result (HasItsLines seat.new) }
        ensures none { HasSeenMore seat.old seat.new }
        ensures spot { IfOk result (λ r. IsSpot seat.new.seen r.0 × (from.lines ≤ r.0.lines)) }
        ensures answered { IfOk result (λ r. ComesOfLook seat.new.seen name r.0 (Answered r.1)) }
        ensures running { OnOk result (HasHalted seat.new.seen → ⊥) }
        ensures marked { OnErr result (HasHalted seat.new.seen) }
    {
        let backoff = Backoff::new();
        let (mut spot, mut look) = self.look(rt, seat, name, from)?;
        for _ in rt.forever() {
            let found = match look {
                Look::Answered(reply) => return Ok((spot, reply)),
                other => other,
            };
            let (place, next) = self.look_again(rt, seat, name, spot, found, &backoff)?;
            spot = place;
            look = next;
        }
        unreachable!()
    }

    // The client makes its offer, or asks for it, and waits for the answer.
    fn call<R: Wait>(
        &self,
        rt: &R,
        pass: &mut Pass,
        offer: &Offer,
        ask: bool,
    ) -> Result<Reply, CallFault>
        requires ours { IsClientOf self.now pass.old }
        requires values { GivesValues (program_of self.now.lock.fixed.checked).theory offer.now }
        ensures same { SamePass pass.old pass.new }
        ensures seen { Begins pass.old.seen pass.new.seen }
        ensures may { OnOk result (MayCall self.now pass.old offer.now) }
        ensures answered { IfOk result (λ reply. KnowsAnswer pass.old offer.now ask (answer_of reply) pass.new) }
        ensures keeps { OnErr result (knows pass.new ≡ knows pass.old) }
        ensures none { IfErr result (MakesNone pass.old pass.new) }
        ensures fault { IfErr result (ExplainsCall self.now pass.old pass.new offer.now) }
        ensures halted { HasHalted pass.new.seen → IsErrOf result CallFault.Memory }
    {
        let client = pass.client;
        let (number, from) = self.post(rt, &mut pass.seat, client, offer, ask, pass.spot)?;
        match self.await_answer(rt, &mut pass.seat, (client, number), from) {
            Ok((spot, reply)) => {
                pass.spot = spot;
                Ok(reply)
            }
            Err(Memory) => Err(CallFault::Memory),
        }
    }

    /// The client offers, and waits for the answer; meanwhile it does what jobs are there, so that a session without workers goes on. The pass
    /// then knows a beginning of the log that ends with the entry that answers. What the offer gives are values.
    pub fn offer<R: Wait>(&self, rt: &R, pass: &mut Pass, offer: &Offer) -> Result<Reply, CallFault>
        requires ours { IsClientOf self.now pass.old }
        requires values { GivesValues (program_of self.now.lock.fixed.checked).theory offer.now }
        ensures same { SamePass pass.old pass.new }
        ensures seen { Begins pass.old.seen pass.new.seen }
        ensures may { OnOk result (MayCall self.now pass.old offer.now) }
        ensures answered { IfOk result (λ reply. KnowsAnswer pass.old offer.now false (answer_of reply) pass.new) }
        ensures keeps { OnErr result (knows pass.new ≡ knows pass.old) }
        ensures none { IfErr result (MakesNone pass.old pass.new) }
        ensures fault { IfErr result (ExplainsCall self.now pass.old pass.new offer.now) }
        ensures halted { HasHalted pass.new.seen → IsErrOf result CallFault.Memory }
    {
        self.call(rt, pass, offer, false)
    }

    /// As `offer`, but the client only asks: where its offer can't be taken now, it is told so.
    pub fn ask<R: Wait>(&self, rt: &R, pass: &mut Pass, offer: &Offer) -> Result<Reply, CallFault>
        requires ours { IsClientOf self.now pass.old }
        requires values { GivesValues (program_of self.now.lock.fixed.checked).theory offer.now }
        ensures same { SamePass pass.old pass.new }
        ensures seen { Begins pass.old.seen pass.new.seen }
        ensures may { OnOk result (MayCall self.now pass.old offer.now) }
        ensures answered { IfOk result (λ reply. KnowsAnswer pass.old offer.now true (answer_of reply) pass.new) }
        ensures keeps { OnErr result (knows pass.new ≡ knows pass.old) }
        ensures none { IfErr result (MakesNone pass.old pass.new) }
        ensures fault { IfErr result (ExplainsCall self.now pass.old pass.new offer.now) }
        ensures halted { HasHalted pass.new.seen → IsErrOf result CallFault.Memory }
    {
        self.call(rt, pass, offer, true)
    }
}

impl Session {
    // The client leaves, in a turn; where it stands then.
    fn post_leave<R: Wait>(
        &self,
        rt: &R,
        seat: &mut TurnSeat<SharedBoard>,
        client: u32,
        from: Spot,
    ) -> Result<Spot, CallFault>
        requires rests { IsAtRest self.now.lock.id seat.old }
        requires client { client ≤ self.now.lock.fixed.clients }
        requires idle { IsIdleSeat seat.old client }
        requires spot { IsSpot seat.old.seen from }
        ensures stays { StaysSeat seat.old seat.new }
        ensures own { HasItsLines seat.new }
        ensures made { OnOk result (HasMade seat.old seat.new (left client)) }
        ensures answered { OnOk result (AnswersAll client (events_in seat.new.seen)) }
        ensures spot { IfOk result (λ spot. IsSpot seat.new.seen spot × (spot.lines ≡ length seat.new.seen)) }
        ensures none { OnErr result (HasSeenMore seat.old seat.new) }
        ensures may { OnOk result (HasLeftBy client seat.old.own → ⊥) }
        ensures fault { IfErr result (ExplainsLeavingBy client seat.old.own seat.new.seen) }
        ensures halted { HasHalted seat.new.seen → IsErrOf result CallFault.Memory }
    {
        let mut held = self.turns.take(rt, seat);
        if held.value.is_halted() {
            self.turns.give(seat, held);
            return Err(CallFault::Memory);
        }
        let left = held.value.leave(self.alloc, client, from);
        self.turns.give(seat, held);
        match left {
            Ok(spot) => Ok(spot),
            Err(LeaveFault::NotOpen) => Err(CallFault::Left),
            Err(LeaveFault::Pending) => unreachable!(),
            Err(LeaveFault::Memory) => Err(CallFault::Memory),
        }
    }

    /// The client leaves. The pass then knows a beginning of the log that ends with this.
    pub fn leave<R: Wait>(&self, rt: &R, pass: &mut Pass) -> Result<(), CallFault>
        requires ours { IsClientOf self.now pass.old }
        ensures same { SamePass pass.old pass.new }
        ensures seen { Begins pass.old.seen pass.new.seen }
        ensures may { OnOk result (HasLeft pass.old → ⊥) }
        ensures left { OnOk result (KnowsLeave pass.old pass.new) }
        ensures keeps { OnErr result (knows pass.new ≡ knows pass.old) }
        ensures none { OnErr result (pass.new.own ≡ pass.old.own) }
        ensures fault { IfErr result (ExplainsLeaving pass.old pass.new) }
        ensures halted { HasHalted pass.new.seen → IsErrOf result CallFault.Memory }
    {
        let client = pass.client;
        let spot = self.post_leave(rt, &mut pass.seat, client, pass.spot)?;
        pass.spot = spot;
        Ok(())
    }
}
