// An ask is answered.

ghost use Rattle.std.specs.Prelude.{ℕ, ◌-◌, ◌≡◌, ◌∷◌, ◌++◌, ◌<◌, [], IfOk, IsTrue, OnOk, false, length, map, option_map, true};
ghost use Rattle.std.specs.List.{slice_get};
ghost use Rattle.rule_model.specs.Events.{Event, event_of, pended};
ghost use Rattle.rule_model.specs.States.{after_offer};
ghost use Rattle.board_core.specs.JobValues.{GivesValues};
ghost use Rattle.board_core.specs.Views.{events, program, state, SameNodes, SameSession, SameSetting};
ghost use Rattle.simulator_steps.specs.Asking.{ComesNext, EndsWith, IsAnswer, IsAnswered, IsAtRest, KeepsBehaviour, OnlyWaits, TellsLast, TellsOf};

use board_core::board::Board;
use board_record::PendFault;
use board_work::settling::{Progress, settle_or_work};
use board_work::working::More;
use rule_model::action::Action;
use rule_model::log::Entry;
use rule_model::offer::Offer;
use rule_model::reply::Reply;
use spec_core::memory::Memory;
use std::alloc::Global;

/// How an ask is answered.
#[derive(Drop)]
pub enum Answered {
    /// This action was done, and has taken the offer.
    Done(Action),
    /// No action was done, and this is why.
    Told(Reply),
}

// One entry, or one job, and others with it. Whether it was an entry.
fn settle_once(alloc: Global, board: &mut Board, more: &mut More) -> Result<bool, Memory>
    ensures entry { IfOk result (λ settled. IsTrue settled → ComesNext board.old board.new) }
    ensures job { IfOk result (λ settled. settled ≡ false → OnlyWaits board.old board.new) }
    ensures session { SameSession board.old board.new }
{
    match settle_or_work(alloc, board, more)? {
        Progress::Entry => Ok(true),
        Progress::Work => Ok(false),
        Progress::Nothing => Ok(false),
    }
}

// Does what jobs are needed for the next entry, and appends it.
fn settle(alloc: Global, board: &mut Board) -> Result<(), Memory>
    ensures next { OnOk result (ComesNext board.old board.new) }
    ensures session { SameSession board.old board.new }
{
    let mut more = More::at_first();
    for _ in 0..u64::MAX {
        if settle_once(alloc, board, &mut more)? {
            return Ok(());
        }
    }
    Err(Memory)
}

/// The one client makes an offer, or only asks; the offer's number. What the offer gives are values.
pub fn pend(alloc: Global, board: &mut Board, offer: &Offer, ask: bool) -> Result<u64, Memory>
    requires rests { IsAtRest (state board.old) }
    requires gate { offer.now.gate.0 < length (program board.old).gates }
    requires values { GivesValues (program board.old).theory offer.now }
    ensures log { IfOk result (λ n. events board.new ≡ events board.old ++ pended 1 n offer.now ask ∷ []) }
    ensures state { IfOk result (λ n. state board.new ≡ after_offer (state board.old) 1 n offer.now ask) }
    ensures setting { SameSetting board.old board.new }
    ensures nodes { SameNodes board.old board.new }
    ensures stop { board.new.stop ≡ board.old.stop }
{
    board.log_is_a_derivation();
    match board.pend(alloc, 1, offer, ask) {
        Ok(number) => Ok(number),
        Err(PendFault::Memory) => Err(Memory),
        Err(PendFault::NotOpen) => unreachable!(),
        Err(PendFault::AlreadyPending) => unreachable!(),
        Err(PendFault::NoSuchGate) => unreachable!(),
    }
}

// What an entry tells of an offer that it answers.
#[tactic(auto, using(crate::proofs::Asked::tells_action, crate::proofs::Asked::tells_reply))]
fn told_by(alloc: Global, entry: &Entry) -> Result<Answered, Memory>
    requires answers { (number : ℕ) × IsAnswer number (event_of entry.now) }
    ensures { IfOk result (TellsOf (event_of entry.now)) }
{
    match entry {
        Entry::Act(action, _, _) => Ok(Answered::Done(action.copy(alloc)?)),
        Entry::Reply(_, _, reply) => Ok(Answered::Told(reply.copy(alloc)?)),
        Entry::Pend(_, _, _, _) => unreachable!(),
        Entry::Stall(_) => unreachable!(),
        Entry::Leave(_) => unreachable!(),
    }
}

// The last entry of a log.
fn last_entry(log: &[Entry]) -> Option<&Entry>
    ensures { option_map (λ entry. event_of entry.now) result ≡ slice_get (map event_of log.now) (length log.now - 1) }
{
    log.last()
}

// What the last entry of the log tells of an offer that it answers.
fn last_answered(alloc: Global, board: &Board) -> Result<Answered, Memory>
    requires last { (event : Event) × EndsWith (events board.now) event × (number : ℕ) × IsAnswer number event }
    ensures { IfOk result (TellsLast (events board.now)) }
{
    match last_entry(board.log()) {
        None => unreachable!(),
        Some(entry) => told_by(alloc, entry),
    }
}

/// The one client asks for an offer, which gives values: the first step that meets it is done, or it is told why not. What jobs this needs
/// are done at once.
pub fn ask(alloc: Global, board: &mut Board, offer: &Offer) -> Result<Answered, Memory>
    requires rests { IsAtRest (state board.old) }
    requires gate { offer.now.gate.0 < length (program board.old).gates }
    requires values { GivesValues (program board.old).theory offer.now }
    ensures answered { IfOk result (IsAnswered board.old board.new offer.now) }
    ensures behaviour { IfOk result (KeepsBehaviour board.old board.new) }
    ensures rests { OnOk result (IsAtRest (state board.new)) }
    ensures setting { SameSetting board.old board.new }
{
    board.log_is_a_derivation();
    pend(alloc, board, offer, true)?;
    settle(alloc, board)?;
    last_answered(alloc, board)
}
