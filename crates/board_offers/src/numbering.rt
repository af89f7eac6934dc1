// Numbers of pending offers, which are their places among them.

ghost use Rattle.std.specs.Prelude.{ℕ, ◌≡◌, ◌<◌, ◌≤◌, ◌++◌, ◌∷◌, [], IfOk, OnOk, length, map};
ghost use Rattle.rule_model.specs.Answering.{name_of};
ghost use Rattle.log_states.specs.Views.{pending_of};
ghost use Rattle.board_offers.specs.Numbering.{AreNumbers, place_by_client};
ghost use Rattle.board_offers.specs.Offers.{offer_at};
ghost use Rattle.board_offers.specs.Waiting as waiting;

use log_states::pending::Pending;
use spec_core::memory::Memory;
use std::alloc::Global;

// How many offers there are. No session has so many that their number is none of 32 bits.
fn count(all: &[Pending]) -> Result<u32, Memory>
    ensures { IfOk result (λ n. n ≡ length all.now) }
{
    if all.len() > 4294967295 {
        return Err(Memory);
    }
    Ok(all.len() as u32)
}

// The client of the offer with a number.
fn client_of(all: &[Pending], number: u32) -> u32
    ensures { result ≡ (offer_at (map pending_of all.now) number).client }
{
    match all.get(number as usize) {
        None => 0,
        Some(offer) => offer.client,
    }
}

// Whether the offer with a number only asks.
fn asks(all: &[Pending], number: u32) -> bool
    ensures { result ≡ (offer_at (map pending_of all.now) number).ask }
{
    match all.get(number as usize) {
        None => false,
        Some(offer) => offer.ask,
    }
}

/// The name of the offer with a number.
pub fn name_at(all: &[Pending], number: u32) -> (u32, u64)
    ensures { result ≡ name_of (offer_at (map pending_of all.now) number) }
{
    match all.get(number as usize) {
        None => (0, 0),
        Some(offer) => (offer.client, offer.number),
    }
}

// How many of the offers with these numbers are before the first one whose client isn't less than this one.
fn place(all: &[Pending], numbers: &[u32], client: u32) -> usize
    ensures place { result ≡ place_by_client client (map (offer_at (map pending_of all.now)) numbers.now) }
    ensures within { result ≤ length numbers.now }
{
    match numbers {
        [] => 0,
        [first, rest @ ..] => {
            if client_of(all, *first) < client {
                place(all, rest, client) + 1
            } else {
                0
            }
        }
    }
}

// Puts a number among those of offers that ascend by client.
fn put(all: &[Pending], numbers: &mut Vec<u32>, number: u32) -> Result<(), Memory>
    ensures among { OnOk result (map (offer_at (map pending_of all.now)) numbers.new.items ≡
        waiting.insert_by_client (offer_at (map pending_of all.now) number) (map (offer_at (map pending_of all.now)) numbers.old.items)) }
    ensures numbers { OnOk result ((count : ℕ) → number < count → AreNumbers count numbers.old.items → AreNumbers count numbers.new.items) }
{
    let before = place(all, numbers, client_of(all, number));
    numbers.insert(before, number)?;
    Ok(())
}

/// The numbers of all offers, by ascending client.
pub fn by_client(alloc: Global, all: &[Pending]) -> Result<Vec<u32>, Memory>
    ensures order { IfOk result (λ ns. map (offer_at (map pending_of all.now)) ns.items ≡ waiting.by_client (map pending_of all.now)) }
    ensures numbers { IfOk result (λ ns. AreNumbers (length all.now) ns.items) }
{
    let mut numbers = Vec::new(alloc);
    let mut left = count(all)?;
    while left > 0 {
        left -= 1;
        put(all, &mut numbers, left)?;
    }
    Ok(numbers)
}

// Keeps a number behind others, if its offer only asks.
fn keep_ask(all: &[Pending], those: &mut Vec<u32>, number: u32) -> Result<(), Memory>
    ensures asks { OnOk result (map (offer_at (map pending_of all.now)) those.new.items ≡
        map (offer_at (map pending_of all.now)) those.old.items ++ waiting.only_asks (offer_at (map pending_of all.now) number ∷ [])) }
    ensures numbers { OnOk result ((count : ℕ) → number < count → AreNumbers count those.old.items → AreNumbers count those.new.items) }
{
    if !asks(all, number) {
        return Ok(());
    }
    those.push(number)?;
    Ok(())
}

/// Those of these numbers whose offers only ask.
pub fn only_asks(alloc: Global, all: &[Pending], numbers: &[u32]) -> Result<Vec<u32>, Memory>
    requires numbers { AreNumbers (length all.now) numbers.now }
    ensures asks { IfOk result (λ ns. map (offer_at (map pending_of all.now)) ns.items ≡
        waiting.only_asks (map (offer_at (map pending_of all.now)) numbers.now)) }
    ensures numbers { IfOk result (λ ns. AreNumbers (length all.now) ns.items) }
{
    let mut those = Vec::new(alloc);
    for number in numbers {
        keep_ask(all, &mut those, *number)?;
    }
    Ok(those)
}

/// The numbers of all offers, in their order.
pub fn in_order(alloc: Global, all: &[Pending]) -> Result<Vec<u32>, Memory>
    ensures order { IfOk result (λ ns. map (offer_at (map pending_of all.now)) ns.items ≡ map pending_of all.now) }
    ensures numbers { IfOk result (λ ns. AreNumbers (length all.now) ns.items) }
{
    let mut numbers = Vec::new(alloc);
    for number in 0..count(all)? {
        numbers.push(number)?;
    }
    Ok(numbers)
}
