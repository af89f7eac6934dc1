// Turns of two seats one after another, and of four seats in threads.

ghost use Rattle.std.specs.Prelude.{◌≡◌, ℕ, ◌^◌, ◌<◌, [], ◌∷◌, Some, IfOk, length, map, slice_index_or, vec_len};
ghost use Rattle.std.specs.List.{range_with_len};
ghost use Rattle.turn_lock.specs.Entries.{Continues};
ghost use Rattle.turn_lock.specs.Seats.{IsAtRest};

use spec_core::memory::Memory;
use std::alloc::Global;
use std::sync::Wait;
use std::thread;
use std::thread::Threads;
use turn_lock::{Standing, TurnSeat, Turns};

/// A list of the numbers of seats, each added by its seat, and a name that stays.
#[derive(Drop)]
struct Tally {
    numbers: Vec<u32>,
    name: char,
}

impl Standing for Tally {
    ghost use Rattle.std.specs.Prelude.{Some};

    type Entry = u32;

    type Fixed = char;

    ghost list = { λ tally. tally.numbers.items };

    ghost fixed = { λ tally. tally.name };

    ghost maker = { Some };

    fn length(&self) -> u64 {
        self.numbers.len() as u64
    }
}

impl Tally {
    fn add(&mut self, number: u32) -> Result<(), Memory>
        ensures list { Continues Some number self.old.numbers.items self.new.numbers.items }
        ensures name { self.new.name ≡ self.old.name }
    {
        self.numbers.push(number)?;
        Ok(())
    }
}

/// One turn of the seat with this number, in which it adds its number. It answers how many numbers it found.
fn add_in_turn<R: Wait>(
    rt: &R,
    lock: &Turns<Tally>,
    seat: &mut TurnSeat<Tally>,
    number: u32,
) -> Result<usize, Memory>
    requires resting { IsAtRest lock.now.id seat.old }
    requires number { seat.old.number ≡ number }
    ensures resting { IsAtRest lock.now.id seat.new }
    ensures number { seat.new.number ≡ number }
{
    let mut held = lock.take(rt, seat);
    let found = held.value.numbers.len();
    let added = held.value.add(number);
    lock.give(seat, held);
    added?;
    Ok(found)
}

/// A tally with one entry, of the seat 1.
fn opening_tally(alloc: Global) -> Result<Tally, Memory>
    ensures { IfOk result (λ tally. tally.numbers.items ≡ 1 ∷ []) }
{
    let mut numbers = Vec::new(alloc);
    numbers.push(1)?;
    Ok(Tally { numbers, name: 't' })
}

/// The seats 0 and 1 in a row.
fn row_of_two(
    alloc: Global,
    first: TurnSeat<Tally>,
    second: TurnSeat<Tally>,
) -> Result<Vec<TurnSeat<Tally>>, Memory>
    requires numbers { (first.number ≡ 0) × (second.number ≡ 1) }
    ensures seats { IfOk result (λ row. row.items ≡ first ∷ second ∷ []) }
    ensures numbers { IfOk result (λ row. map (λ seat. seat.number) row.items ≡ range_with_len 0 2) }
{
    let mut row = Vec::new(alloc);
    row.push(first)?;
    row.push(second)?;
    Ok(row)
}

/// The turns of one seat in its thread.
fn add_in_turns<R: Wait>(rt: &R, lock: &Turns<Tally>, seat: &mut TurnSeat<Tally>, number: u32)
    requires resting { IsAtRest lock.now.id seat.old }
    requires number { seat.old.number ≡ number }
    ensures resting { IsAtRest lock.now.id seat.new }
    ensures number { seat.new.number ≡ number }
{
    for _ in 0..200 {
        if add_in_turn(rt, lock, seat, number).is_err() {
            return;
        }
    }
}

/// Each seat takes its turns in a thread of its own.
fn add_in_threads<R: Threads + Wait + Sync>(
    rt: &R,
    lock: &Turns<Tally>,
    seats: &mut Vec<TurnSeat<Tally>>,
)
    requires few { vec_len seats.old < 2 ^ 32 }
    requires each { (i : ℕ) (s : _) → i < vec_len seats.old →
        s ≡ slice_index_or seats.old.items i s → IsAtRest lock.now.id s × (s.number ≡ i) }
    ensures length { length seats.new.items ≡ length seats.old.items }
    ensures each { (i : ℕ) (s : _) → i < length seats.new.items →
        s ≡ slice_index_or seats.new.items i s → IsAtRest lock.now.id s × (s.number ≡ i) }
{
    thread::for_each_mut(
        rt,
        seats.as_mut_slice(),
        4,
        &|i, seat: &mut TurnSeat<Tally>|
            requires { IsAtRest lock.now.id seat.old × (seat.old.number ≡ i) × (i < 2 ^ 32) }
            ensures { IsAtRest lock.entry.now.id seat.new × (seat.new.number ≡ i) }
        { add_in_turns(rt, lock, seat, i as u32) },
    );
}

#[test]
fn two_seats_take_turns_over_one_list(rt: HostRuntime) {
    let alloc: Global = rt.alloc();
    let tally = opening_tally(alloc).expect(&rt, "memory");
    let (lock, mut seats) = Turns::new(alloc, tally, 2).expect(&rt, "memory");
    let mut second = seats.pop().expect(&rt, "the seat 1");
    let mut first = seats.pop().expect(&rt, "the seat 0");
    let found = add_in_turn(&rt, &lock, &mut first, 0).expect(&rt, "memory");
    assert_eq!(rt; found, 1);
    let found = add_in_turn(&rt, &lock, &mut second, 1).expect(&rt, "memory");
    assert_eq!(rt; found, 2);
    let row = row_of_two(alloc, first, second).expect(&rt, "memory");
    let tally = lock.close(row);
    assert_eq!(rt; tally.numbers.as_slice(), [1, 0, 1].as_slice());
    assert_eq!(rt; tally.name, 't');
}

#[test]
fn four_threads_add_each_its_turns(rt: HostRuntime) {
    let alloc: Global = rt.alloc();
    let tally = opening_tally(alloc).expect(&rt, "memory");
    let (lock, mut seats) = Turns::new(alloc, tally, 4).expect(&rt, "memory");
    add_in_threads(&rt, &lock, &mut seats);
    let tally = lock.close(seats);
    assert_eq!(rt; tally.numbers.len(), 801);
    for (seat, turns) in [(0, 200), (1, 201), (2, 200), (3, 200)] {
        let added = tally
            .numbers
            .iter()
            .filter(|number| **number == seat)
            .count();
        assert_eq!(rt; added, turns, "the seat {seat}");
    }
}
