// The next entry by the rules, from what is known. Each function tries one rule, and then those behind it.

ghost use Rattle.std.specs.Prelude.{ℕ, ◌≡◌, IfOk, map, Some};
ghost use Rattle.decision_trees.specs.Rules.{meeting, takes, beyond_or_unseen, is_beyond, stalls, deadlocks, nothing, if_some};
ghost use Rattle.decision_order.specs.Rules.{first_decided, stalled_decided, unseen_decided, waiting_decided, asked_decided, marked_decided};
ghost use Rattle.decision_order.specs.Rules.{unmet_decided, next_decided};
ghost use Rattle.decision_order.specs.Searches.{settled_of, waiting_of};

use crate::listing::{All, First, Listing, OffersByNumber, Search};
use spec_core::memory::Memory;
use std::alloc::Global;

/// The next entry, with the number of its offer and with its candidate; or that it isn't decided by what is known.
#[derive(Drop)]
pub enum Settled<F> {
    /// A node has to be expanded first, or a candidate to be judged.
    Unknown,
    /// The offer is taken by the candidate.
    Takes(u32, F),
    /// There is no step at all.
    Deadlocks,
    /// The offer is answered beyond, with the candidate's tree.
    IsBeyond(u32, F),
    /// The offer, which only asks, meets nothing now.
    IsNotNow(u32),
    /// One of these candidates does an action that nobody sees.
    GoesOn(Vec<F>),
    /// All pending offers are stalled.
    Stalls,
    /// Nothing comes next.
    Nothing,
}

// A stall, where an offer is pending.
fn stalled<L: Listing>(offers: &OffersByNumber) -> Settled<L::Found>
    ensures { settled_of L.candidate_of result ≡ Some (if_some offers.now.pending.items (λ ps. stalls) nothing) }
{
    if offers.pending.is_empty() {
        Settled::Nothing
    } else {
        Settled::Stalls
    }
}

// A deadlock, where an offer is pending.
fn dead<L: Listing>(offers: &OffersByNumber) -> Settled<L::Found>
    ensures { settled_of L.candidate_of result ≡ Some (if_some offers.now.pending.items (λ ps. deadlocks) nothing) }
{
    if offers.pending.is_empty() {
        Settled::Nothing
    } else {
        Settled::Deadlocks
    }
}

// The first of these offers for which, or for an unseen action, there is a tree with a mark; else a stall.
fn beyond<L: Listing>(
    those: &[u32],
    alloc: Global,
    listing: &L,
    offers: &OffersByNumber,
) -> Result<Settled<L::Found>, Memory>
    ensures { IfOk result (λ s. settled_of L.candidate_of s ≡
        first_decided (L.find listing.now) (L.every listing.now) (waiting_of offers.now) beyond_or_unseen is_beyond those.now
        (stalled_decided (L.find listing.now) (L.every listing.now) (waiting_of offers.now))) }
{
    match those {
        [] => Ok(stalled::<L>(offers)),
        [offer, rest @ ..] => match listing.first(alloc, Search::BeyondOrUnseen(*offer))? {
            First::Open => Ok(Settled::Unknown),
            First::Absent => beyond(rest, alloc, listing, offers),
            First::Is(candidate) => Ok(Settled::IsBeyond(*offer, candidate)),
        },
    }
}

// One of these unseen actions is done; where there is none, an offer is answered beyond, or there is a stall.
fn unseen<L: Listing>(
    those: Vec<L::Found>,
    alloc: Global,
    listing: &L,
    offers: &OffersByNumber,
) -> Result<Settled<L::Found>, Memory>
    ensures { IfOk result (λ s. settled_of L.candidate_of s ≡
        unseen_decided (L.find listing.now) (L.every listing.now) (waiting_of offers.now) (map L.candidate_of those.items)) }
{
    if those.is_empty() {
        beyond(&offers.by_client, alloc, listing, offers)
    } else {
        Ok(Settled::GoesOn(those))
    }
}

// Where each open client waits.
fn waiting<L: Listing>(
    alloc: Global,
    listing: &L,
    offers: &OffersByNumber,
) -> Result<Settled<L::Found>, Memory>
    ensures { IfOk result (λ s. settled_of L.candidate_of s ≡
        waiting_decided (L.find listing.now) (L.every listing.now) (waiting_of offers.now)) }
{
    if offers.all_wait {
        match listing.all(alloc, Search::Unseen)? {
            All::Undecided => Ok(Settled::Unknown),
            All::These(those) => unseen(those, alloc, listing, offers),
        }
    } else {
        Ok(Settled::Nothing)
    }
}

// The first offer that only asks is answered; where there is none, each open client may wait.
fn asked<L: Listing>(
    alloc: Global,
    listing: &L,
    offers: &OffersByNumber,
) -> Result<Settled<L::Found>, Memory>
    ensures { IfOk result (λ s. settled_of L.candidate_of s ≡
        asked_decided (L.find listing.now) (L.every listing.now) (waiting_of offers.now) offers.now.asks.items) }
{
    match offers.asks.as_slice() {
        [] => waiting(alloc, listing, offers),
        [offer, ..] => match listing.first(alloc, Search::Beyond(*offer))? {
            First::Open => Ok(Settled::Unknown),
            First::Absent => Ok(Settled::IsNotNow(*offer)),
            First::Is(candidate) => Ok(Settled::IsBeyond(*offer, candidate)),
        },
    }
}

// No tree is windowed: where none has a mark either there is a deadlock.
fn marked<L: Listing>(
    alloc: Global,
    listing: &L,
    offers: &OffersByNumber,
) -> Result<Settled<L::Found>, Memory>
    ensures { IfOk result (λ s. settled_of L.candidate_of s ≡
        marked_decided (L.find listing.now) (L.every listing.now) (waiting_of offers.now)) }
{
    match listing.first(alloc, Search::AnyBeyond)? {
        First::Open => Ok(Settled::Unknown),
        First::Absent => Ok(dead::<L>(offers)),
        First::Is(_) => asked(alloc, listing, offers),
    }
}

// No windowed tree meets a pending offer.
fn unmet<L: Listing>(
    alloc: Global,
    listing: &L,
    offers: &OffersByNumber,
) -> Result<Settled<L::Found>, Memory>
    ensures { IfOk result (λ s. settled_of L.candidate_of s ≡
        unmet_decided (L.find listing.now) (L.every listing.now) (waiting_of offers.now)) }
{
    match listing.first(alloc, Search::Any)? {
        First::Open => Ok(Settled::Unknown),
        First::Absent => marked(alloc, listing, offers),
        First::Is(_) => asked(alloc, listing, offers),
    }
}

// The first of these offers that a windowed tree meets is taken.
fn taken<L: Listing>(
    those: &[u32],
    alloc: Global,
    listing: &L,
    offers: &OffersByNumber,
) -> Result<Settled<L::Found>, Memory>
    ensures { IfOk result (λ s. settled_of L.candidate_of s ≡
        first_decided (L.find listing.now) (L.every listing.now) (waiting_of offers.now) meeting takes those.now
        (unmet_decided (L.find listing.now) (L.every listing.now) (waiting_of offers.now))) }
{
    match those {
        [] => unmet(alloc, listing, offers),
        [offer, rest @ ..] => match listing.first(alloc, Search::Meeting(*offer))? {
            First::Open => Ok(Settled::Unknown),
            First::Absent => taken(rest, alloc, listing, offers),
            First::Is(candidate) => Ok(Settled::Takes(*offer, candidate)),
        },
    }
}

/// The next entry by the rules of a session, as far as what is known decides it. A stop reason, the end by `exit` and the step limit are
/// not looked at.
pub fn settle<L: Listing>(
    alloc: Global,
    listing: &L,
    offers: &OffersByNumber,
) -> Result<Settled<L::Found>, Memory>
    ensures next { IfOk result (λ s.
        settled_of L.candidate_of s ≡ next_decided (L.find listing.now) (L.every listing.now) (waiting_of offers.now)) }
{
    taken(&offers.pending, alloc, listing, offers)
}
