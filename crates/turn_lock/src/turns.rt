// The lock.

ghost use Rattle.std.specs.Prelude.{◌≡◌, ℕ, ◌+◌, ◌-◌, ◌<◌, ◌≤◌, [], ◌∷◌, map, Contains, All, Some, None, false, true, IfOk, OnOk};
ghost use Rattle.std.specs.List.{AllByRecursion, range_with_len};
ghost use Rattle.turn_lock.specs.declared.rule.Phase.TheVariants.{Idle, Drawn, Called, Published};
ghost use Rattle.turn_lock.specs.Entries.{made_by, Begins, Continues, NamesBelow};
ghost use Rattle.turn_lock.specs.Seats.{IsAtRest, AgreesWith, new_seat, new_seats};
ghost use Rattle.turn_lock.specs.Rule.{first_view};
ghost use Rattle.turn_lock.specs.Steps.{IsResting, HasTurn, Gets, in_phase, with_lists};
ghost use Rattle.turn_lock.specs.Closing.{AllNoted};

use crate::plays::{Deal, Draw, Gather, Look, MadeWith, Pass, Publish, Publishes, Ring};
use crate::rule::{Opening, TurnRule, View};
use crate::seat::{Place, TurnSeat};
use crate::standing::Standing;
use atomic_table::{Shared, Table};
use crossbeam_utils::Backoff;
use spec_core::memory::Memory;
use std::alloc::Global;
use std::marker::{Brand, Model};
use std::snapshot::Snapshot;
use std::sync::Wait;

// The word of the next ticket, of the ticket that is served, and of the list's length.
const TICKET: usize = 0;

const SERVING: usize = 1;

const LENGTH: usize = 2;

// Behind them stand the bells, at which threads wait for their turn: the word of the first, and how many there are.
const FIRST_BELL: usize = 3;

const BELLS: usize = 64;

const WORDS: usize = FIRST_BELL + BELLS;

// The slot of the value.
const VALUE: usize = 0;

// A thread sleeps while the low bits of a word, so many, are as it saw them.
const WORD: u64 = 4_294_967_296;

type Top<T> = Shared<
    Option<T>,
    View<<T as Standing>::Entry, <T as Standing>::Fixed>,
    Opening<T>,
    TurnRule<T>,
>;

/// A lock round one value, whose turns are served in the order in which their tickets were drawn. Contracts see which
/// lock it is, the fixed part of the value with which it was made, and the number of its seats.
#[derive(Drop)]
pub struct Turns<T: Standing> {
    table: Table<Option<T>, View<T::Entry, T::Fixed>, Opening<T>, TurnRule<T>, Global>,
}

impl<T: Standing> Model for Turns<T> {
    ghost use Rattle.std.specs.Prelude.{◌≡◌, ◌≤◌};
    ghost use Rattle.turn_lock.specs.Seats.{LockModel};

    ghost Value = { LockModel T.Fixed };

    ghost view = { λ l. record {
      id = l.table.shared.table_id;
      fixed = T.fixed l.table.shared.key.value.value;
      seats = l.table.shared.key.seats;
    } };

    ghost use Rattle.turn_lock.specs.declared.turns.TheConstants.{WORDS};

    ghost invariant = { λ l. (l.table.shared.table_id.words ≡ WORDS) × (l.table.shared.table_id.slots ≡ 1) × (1 ≤ l.table.shared.key.seats) };
}

/// The value, while its turn is held.
pub struct Held<T> {
    /// What the lock is round.
    pub value: T,
}

// Draws a ticket. A try that another seat forestalled changes nothing, and is made again.
fn draw<T: Standing, R: Wait>(rt: &R, top: &Top<T>, place: &mut Place<T>) -> u64
    requires table { (place.old.table_id ≡ top.now.table_id) × (top.now.table_id.words ≡ WORDS) }
    requires resting { IsResting place.old }
    ensures { (place.new.table_id ≡ place.old.table_id) × (place.new.me ≡ (in_phase place.old.me.0 (Drawn result), [])) }
{
    let backoff = Backoff::new();
    let mut ticket = top.peek(TICKET);
    for _ in rt.forever() {
        if ticket < u64::MAX {
            let found = top.compare_exchange::<Draw>(place, TICKET, ticket, ticket + 1);
            if found == ticket {
                return ticket;
            }
            ticket = found;
        } else {
            ticket = top.peek(TICKET);
        }
        backoff.spin();
    }
    unreachable!()
}

// The word at which the thread with this ticket sleeps.
fn bell_of(ticket: u64) -> usize
    ensures { (FIRST_BELL ≤ result) × (result < WORDS) }
{
    FIRST_BELL + ticket as usize % BELLS
}

// Looks until the ticket is served, and then has the slot. After a few looks the thread sleeps until its bell is rung. It
// reads the bell before it looks, so a ring that comes after the look is seen.
fn wait<T: Standing, J: MadeWith<T::Fixed>, R: Wait>(
    rt: &R,
    top: &Top<T>,
    place: &mut Place<T>,
    ticket: u64,
)
    requires table { (place.old.table_id ≡ top.now.table_id) × (top.now.table_id.words ≡ WORDS) × (top.now.table_id.slots ≡ 1) }
    requires drawn { (place.old.me.0.phase ≡ Drawn ticket) × (place.old.me.0.spent ≡ false) × (place.old.me.1 ≡ []) }
    requires made_with { (J.fixed_part ≡ Some (T.fixed top.now.key.value.value)) × (J.seats ≡ top.now.key.seats) }
    ensures table { place.new.table_id ≡ place.old.table_id }
    ensures value { (x : T)
        × (place.new.me ≡ (with_lists place.old.me.0 (Called ticket) (T.list x) place.old.me.0.account.own, (0, Some x) ∷ []))
        × Gets T.list T.fixed T.maker J.fixed_part J.seats place.old.me.0 x }
{
    let bell = bell_of(ticket);
    let backoff = Backoff::new();
    for _ in rt.forever() {
        let rung = top.peek(bell);
        if top.load::<Look<T, J>>(place, SERVING) == ticket {
            return;
        }
        if backoff.is_completed() {
            top.park(rt, bell, (rung % WORD) as u32);
        } else {
            backoff.snooze();
        }
    }
    unreachable!()
}

// Publishes the length of the list that the turn leaves.
fn publish<T: Standing, J: Publishes<T::Entry>>(top: &Top<T>, place: &mut Place<T>, value: &T)
    requires table { (place.old.table_id ≡ top.now.table_id) × (top.now.table_id.words ≡ WORDS) }
    requires turn { HasTurn place.old }
    requires list { (J.given ≡ T.list value.now)
        × Continues T.maker place.old.me.0.account.number place.old.me.0.account.seen (T.list value.now) }
    ensures table { place.new.table_id ≡ place.old.table_id }
    ensures list { (t : ℕ) → place.old.me.0.phase ≡ Called t → place.new.me
        ≡ (
          with_lists place.old.me.0 (Published t) (T.list value.now)
              (made_by T.maker place.old.me.0.account.number (T.list value.now)),
          place.old.me.1,
        ) }
{
    top.store::<Publish<T, J>>(place, LENGTH, value.length());
}

// Wakes the thread with this ticket, where it sleeps.
fn ring<T: Standing>(top: &Top<T>, place: &mut Place<T>, ticket: u64)
    requires table { (place.old.table_id ≡ top.now.table_id) × (top.now.table_id.words ≡ WORDS) }
    ensures same { (place.new.table_id ≡ place.old.table_id) × (place.new.me ≡ place.old.me) }
{
    let bell = bell_of(ticket);
    top.fetch_add::<Ring>(place, bell, 1);
    top.wake_all(bell);
}

// Splits all seats but the first off the first one.
fn deal<T: Standing>(
    top: &Top<T>,
    first: &mut Place<T>,
    count: u32,
    row: &mut Vec<TurnSeat<T>>,
) -> Result<(), Memory>
    requires table { (first.old.table_id ≡ top.now.table_id) × (top.now.table_id.words ≡ WORDS) }
    requires count { (1 ≤ count) × (count ≡ top.now.key.seats) }
    requires first { first.old.me ≡ (first_view T.list T.fixed T.maker top.now.key.value.value count, []) }
    requires row { row.old.items ≡ [] }
    ensures first { OnOk result ((first.new.table_id ≡ first.old.table_id)
        × (first.new.me ≡ (record (first_view T.list T.fixed T.maker top.now.key.value.value count) { next = count }, []))) }
    ensures row { OnOk result (row.new.items
        ≡ map (new_seat T.maker top.now.table_id (T.list top.now.key.value.value)) (range_with_len 1 (count - 1))) }
{
    for _number in 1..count {
        let place = top.split_seat::<Deal<T>>(first);
        row.push(TurnSeat { place })?;
    }
    Ok(())
}

// Joins all seats into one.
fn gather<T: Standing>(top: &Top<T>, mut place: Place<T>, mut seats: Vec<TurnSeat<T>>) -> Place<T>
    requires table { (place.table_id ≡ top.now.table_id) × (top.now.table_id.words ≡ WORDS) }
    requires first { IsResting place }
    requires others { AllByRecursion (IsAtRest top.now.table_id) seats.items }
    ensures same { (result.table_id ≡ place.table_id) × IsResting result }
    ensures own { (result.me.0.account.number ≡ place.me.0.account.number)
        × (result.me.0.account.own ≡ place.me.0.account.own)
        × Begins place.me.0.account.seen result.me.0.account.seen }
    ensures others { AllNoted result.me.0.joined seats.items }
{
    while let Some(seat) = seats.pop() {
        let TurnSeat { place: other } = seat;
        top.join_seat::<Gather>(&mut place, other);
    }
    place
}

impl<T: Standing> Turns<T> {
    /// A lock round a value, with its seats. Each seat has seen the value's whole list, and its own entries are those that
    /// name it.
    pub fn new(alloc: Global, value: T, seats: u32) -> Result<(Turns<T>, Vec<TurnSeat<T>>), Memory>
    where
        T: Drop,
        requires some_seat { 1 ≤ seats }
        requires named { NamesBelow T.maker seats (T.list value) }
        ensures lock { IfOk result (λ r. (r.0.fixed ≡ T.fixed value) × (r.0.seats ≡ seats)) }
        ensures seats { IfOk result (λ r. r.1.items ≡ new_seats T.maker r.0.id (T.list value) seats) }
    {
        let mut words = [0; WORDS];
        words[LENGTH] = value.length();
        let about = Opening {
            value: Snapshot::of(&value),
            seats: u64::from(seats),
        };
        let mut slots = Vec::new(alloc);
        slots.push(Some(value))?;
        let Ok((table, mut first)) = Table::new(alloc, &words, slots, &about) else {
            return Err(Memory);
        };
        let mut row = Vec::new(alloc);
        deal(&table.shared, &mut first, seats, &mut row)?;
        row.insert(0, TurnSeat { place: first })?;
        Ok((Turns { table }, row))
    }

    /// Waits for the turn, and takes the value. A lock whose tickets have reached 2^64 - 1 gives no further turn, and this
    /// call then doesn't return. It takes no memory.
    pub fn take<R: Wait>(&self, rt: &R, seat: &mut TurnSeat<T>) -> Held<T>
        requires resting { IsAtRest self.now.id seat.old }
        ensures seat { seat.new ≡ record seat.old { seen = T.list result.value; holds_turn = true } }
        ensures list { AgreesWith T.maker (T.list result.value) seat.old }
        ensures named { NamesBelow T.maker self.now.seats (T.list result.value) }
        ensures fixed { T.fixed result.value ≡ self.now.fixed }
    {
        let top = &self.table.shared;
        let ticket = draw(rt, top, &mut seat.place);
        wait::<T, Brand, R>(rt, top, &mut seat.place, ticket);
        let value = top.exchange(&mut seat.place, VALUE, None).unwrap();
        Held { value }
    }

    /// Gives the value back, and passes the turn. The list goes on from the one that was taken, and each new entry that names
    /// a seat names this one. It takes no memory.
    pub fn give(&self, seat: &mut TurnSeat<T>, held: Held<T>)
        requires lock { seat.old.lock ≡ self.now.id }
        requires turn { seat.old.holds_turn ≡ true }
        requires list { Continues T.maker seat.old.number seat.old.seen (T.list held.value) }
        requires fixed { T.fixed held.value ≡ self.now.fixed }
        ensures seat { seat.new ≡ record seat.old {
          seen = T.list held.value;
          own = made_by T.maker seat.old.number (T.list held.value);
          holds_turn = false;
        } }
    {
        let top = &self.table.shared;
        let Held { value } = held;
        publish::<T, Brand>(top, &mut seat.place, &value);
        let left = top.exchange(&mut seat.place, VALUE, Some(value));
        let None = left else { unreachable!() };
        let served = top.fetch_add::<Pass>(&mut seat.place, SERVING, 1);
        ring(top, &mut seat.place, served.wrapping_add(1));
    }

    /// Takes the value out, where all seats that `new` gave are handed back and none holds the turn. It takes no memory.
    pub fn close(self, mut seats: Vec<TurnSeat<T>>) -> T
        requires each { All (IsAtRest self.id) seats.items }
        requires complete { (n : ℕ) → n < self.seats → Contains (map (λ seat. seat.number) seats.items) n }
        ensures fixed { T.fixed result ≡ self.fixed }
        ensures lists { All (AgreesWith T.maker (T.list result)) seats.items }
        ensures named { NamesBelow T.maker self.seats (T.list result) }
    {
        let Turns { table } = self;
        let Some(last) = seats.pop() else {
            unreachable!()
        };
        let TurnSeat { place } = last;
        let place = gather(&table.shared, place, seats);
        let mut closed = table.close_with(place);
        let out = closed.take(VALUE);
        closed.free();
        out.unwrap()
    }
}
