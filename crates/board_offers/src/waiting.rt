// The pending offers of a session, as its rules ask for them.

ghost use Rattle.std.specs.Prelude.{◌≡◌, IfOk, length, map, option_map};
ghost use Rattle.decision_trees.specs.Lazy.{first};
ghost use Rattle.rule_model.specs.Answering.{name_of};
ghost use Rattle.log_states.specs.Views.{pending_of, state_of};
ghost use Rattle.decision_order.specs.Numbered.{waiting_with};
ghost use Rattle.decision_order.specs.Searches.{waiting_of};
ghost use Rattle.board_offers.specs.Numbering.{AreOfOffers, lesser_name};
ghost use Rattle.board_offers.specs.Offers.{offer_at};
ghost use Rattle.board_offers.specs.Waiting.{all_have_offers, by_client, waiting_in};

use crate::numbering;
use decision_order::listing::OffersByNumber;
use log_states::pending::Pending;
use log_states::state::SessionState;
use spec_core::memory::Memory;
use std::alloc::Global;

// Whether each open client has an offer pending.
fn all_wait(session: &SessionState) -> bool
    ensures { result ≡ all_have_offers (state_of session.now).open_clients (state_of session.now).pending }
{
    session.all_wait()
}

/// The pending offers by their numbers, which are their places, as the rules of a session ask for them.
pub fn offers_by_number(alloc: Global, session: &SessionState) -> Result<OffersByNumber, Memory>
    ensures waiting { IfOk result (λ o.
        waiting_with (offer_at (state_of session.now).pending) (waiting_of o) ≡ waiting_in (state_of session.now)) }
    ensures numbers { IfOk result (λ o. AreOfOffers (length (state_of session.now).pending) o) }
{
    let all = session.pending();
    let by_client = numbering::by_client(alloc, all)?;
    let asks = numbering::only_asks(alloc, all, &by_client)?;
    let pending = numbering::in_order(alloc, all)?;
    Ok(OffersByNumber {
        pending,
        asks,
        by_client,
        all_wait: all_wait(session),
    })
}

// The names of the offers with these numbers.
fn names(alloc: Global, all: &[Pending], numbers: &[u32]) -> Result<Vec<(u32, u64)>, Memory>
    ensures { IfOk result (λ names. names.items ≡ map name_of (map (offer_at (map pending_of all.now)) numbers.now)) }
{
    let mut names = Vec::new(alloc);
    for number in numbers {
        names.push(numbering::name_at(all, *number))?;
    }
    Ok(names)
}

/// The names of the pending offers, by ascending client.
pub fn names_by_client(alloc: Global, session: &SessionState) -> Result<Vec<(u32, u64)>, Memory>
    ensures { IfOk result (λ names. names.items ≡ map name_of (by_client (state_of session.now).pending)) }
{
    let all = session.pending();
    let numbers = numbering::by_client(alloc, all)?;
    names(alloc, all, &numbers)
}

// The name of the first of these offers by ascending client.
fn least(all: &[Pending]) -> Option<(u32, u64)>
    ensures { result ≡ option_map name_of (first (by_client (map pending_of all.now))) }
{
    match all {
        [] => None,
        [offer, rest @ ..] => Some(lesser((offer.client, offer.number), least(rest))),
    }
}

// The first of two names, unless the client of the second, where there is one, is less.
fn lesser(name: (u32, u64), other: Option<(u32, u64)>) -> (u32, u64)
    ensures { result ≡ lesser_name name other }
{
    match other {
        None => name,
        Some(second) => { if second.0 < name.0 { second } else { name } }
    }
}

/// The name of the pending offer of the least client that has one. It takes no memory.
pub fn least_pending(session: &SessionState) -> Option<(u32, u64)>
    ensures { result ≡ option_map name_of (first (by_client (state_of session.now).pending)) }
{
    least(session.pending())
}
