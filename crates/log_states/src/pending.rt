// Offers that wait for their answers.

ghost use Rattle.std.specs.Prelude.{◌≡◌, ◌↔◌, ◌++◌, ◌∷◌, [], IfOk, IsTrue, OnErr, OnOk, map};
ghost use Rattle.spec_core.specs.Theories.{theory_of};
ghost use Rattle.rule_model.specs.Meets.{Meets};
ghost use Rattle.rule_model.specs.States as states;
ghost use Rattle.log_states.specs.Pending.{all_wait_among, waits_among, is_idle_among, WaitsAnd};
ghost use Rattle.log_states.specs.Views.{pending_of};

use crate::clients::Client;
use crate::meeting::meets;
use rule_model::action::Action;
use rule_model::offer::Offer;
use spec_core::equation::DataSpec;
use spec_core::memory::Memory;
use std::alloc::Global;

/// An offer that waits for its answer.
#[derive(Drop)]
pub struct Pending {
    /// Who makes it.
    pub client: u32,
    /// Its number, from 1 for each client.
    pub number: u64,
    /// What is offered.
    pub offer: Offer,
    /// Whether it is only asked for.
    pub ask: bool,
}

/// Whether the offer of this client and number is pending.
pub fn waits(all: &[Pending], client: u32, number: u64) -> bool
    ensures { result ≡ waits_among (map pending_of all.now) client number }
{
    match all {
        [] => false,
        [first, rest @ ..] => {
            first.client == client && first.number == number || waits(rest, client, number)
        }
    }
}

/// Whether the client has no offer pending.
pub fn is_idle(all: &[Pending], client: u32) -> bool
    ensures { result ≡ is_idle_among (map pending_of all.now) client }
{
    match all {
        [] => true,
        [first, rest @ ..] => first.client != client && is_idle(rest, client),
    }
}

/// Whether each open one of these clients has an offer pending.
pub fn all_wait(clients: &[Client], all: &[Pending]) -> bool
    ensures { result ≡ all_wait_among clients.now (map pending_of all.now) }
{
    match clients {
        [] => true,
        [first, rest @ ..] => (!first.is_open || !is_idle(all, first.number))
            && all_wait(rest, all),
    }
}

/// Whether the offer of this client and number is pending, and the action meets it.
pub fn takes(algebra: &DataSpec, all: &[Pending], client: u32, number: u64, action: &Action) -> bool
    ensures { IsTrue result ↔ WaitsAnd (Meets (theory_of algebra.now) action.now) (map pending_of all.now) client number }
{
    match all {
        [] => false,
        [first, rest @ ..] => {
            if first.client == client
                && first.number == number
                && meets(algebra, action, &first.offer)
            {
                true
            } else {
                takes(algebra, rest, client, number, action)
            }
        }
    }
}

/// Another offer waits, behind the others.
pub fn add(all: &mut Vec<Pending>, waiting: Pending) -> Result<(), Memory>
    ensures added { OnOk result (map pending_of all.new.items ≡ map pending_of all.old.items ++ pending_of waiting ∷ []) }
    ensures same { OnErr result (all.new.items ≡ all.old.items) }
{
    all.push(waiting)?;
    Ok(())
}

impl Pending {
    fn copy(&self, alloc: Global) -> Result<Pending, Memory>
        ensures { IfOk result (λ p. pending_of p ≡ pending_of self.now) }
    {
        Ok(Pending {
            client: self.client,
            number: self.number,
            offer: self.offer.copy(alloc)?,
            ask: self.ask,
        })
    }
}

// Keeps a copy of a pending offer, if it is another one.
fn keep(
    alloc: Global,
    left: &mut Vec<Pending>,
    waiting: &Pending,
    client: u32,
    number: u64,
) -> Result<(), Memory>
    ensures { OnOk result (map pending_of left.new.items ≡
        map pending_of left.old.items ++ states.without (client, number) (pending_of waiting.now ∷ [])) }
{
    if waiting.client == client {
        if waiting.number == number {
            return Ok(());
        }
    }
    left.push(waiting.copy(alloc)?)?;
    Ok(())
}

/// The other pending offers.
pub fn without(
    alloc: Global,
    all: &[Pending],
    client: u32,
    number: u64,
) -> Result<Vec<Pending>, Memory>
    ensures { IfOk result (λ left. map pending_of left.items ≡ states.without (client, number) (map pending_of all.now)) }
{
    let mut left = Vec::new(alloc);
    for waiting in all {
        keep(alloc, &mut left, waiting, client, number)?;
    }
    Ok(left)
}

// All of them.
fn copies(alloc: Global, all: &[Pending]) -> Result<Vec<Pending>, Memory>
    ensures { IfOk result (λ copied. map pending_of copied.items ≡ map pending_of all.now) }
{
    let mut copied = Vec::new(alloc);
    for waiting in all {
        copied.push(waiting.copy(alloc)?)?;
    }
    Ok(copied)
}

/// Those that aren't taken.
pub fn without_taken(
    alloc: Global,
    all: &[Pending],
    by: Option<(u32, u64)>,
) -> Result<Vec<Pending>, Memory>
    ensures { IfOk result (λ left. map pending_of left.items ≡ states.without_taken by (map pending_of all.now)) }
{
    match by {
        None => copies(alloc, all),
        Some((client, number)) => without(alloc, all, client, number),
    }
}
