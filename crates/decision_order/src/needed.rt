// What is to be done next, by the rules. Each function takes on what one rule asks, and then what those behind it ask.

ghost use Rattle.std.specs.Prelude.{ℕ, ◌≡◌, OnOk, IfOk, [], length, map};
ghost use Rattle.decision_trees.specs.Rules.{meeting, beyond_or_unseen};
ghost use Rattle.decision_order.specs.Needed.{first_needed, unseen_needed, waiting_needed, asked_needed, marked_needed, unmet_needed};
ghost use Rattle.decision_order.specs.Needed.{next_needed};
ghost use Rattle.decision_order.specs.Searches.{waiting_of};
ghost use Rattle.decision_order.specs.Jobs.{taken_on};

use crate::asking::{Asked, Asking};
use crate::listing::{OffersByNumber, Search};
use spec_core::memory::Memory;
use std::alloc::Global;

// For which of these offers, or of unseen actions, there is a tree with a mark.
fn beyond<L: Asking>(
    those: &[u32],
    alloc: Global,
    listing: &L,
    offers: &OffersByNumber,
    limit: usize,
    jobs: &mut Vec<L::Job>,
) -> Result<(), Memory>
    ensures { OnOk result (map L.question_of jobs.new.items ≡ taken_on (L.take listing.now limit) (map L.question_of jobs.old.items)
        (first_needed (L.missing listing.now) (L.every_missing listing.now) (L.is_there listing.now) (waiting_of offers.now)
        beyond_or_unseen those.now [])) }
{
    match those {
        [] => Ok(()),
        [offer, rest @ ..] => match listing.first_missing(
            alloc,
            Search::BeyondOrUnseen(*offer),
            limit,
            jobs,
        )? {
            Asked::Full | Asked::Held => Ok(()),
            Asked::Unheld => beyond(rest, alloc, listing, offers, limit, jobs),
        },
    }
}

// Which unseen actions there are; where there is none, whether an offer is answered beyond.
fn unseen<L: Asking>(
    alloc: Global,
    listing: &L,
    offers: &OffersByNumber,
    limit: usize,
    jobs: &mut Vec<L::Job>,
) -> Result<(), Memory>
    ensures { OnOk result (map L.question_of jobs.new.items ≡ taken_on (L.take listing.now limit) (map L.question_of jobs.old.items)
        (unseen_needed (L.missing listing.now) (L.every_missing listing.now) (L.is_there listing.now) (waiting_of offers.now))) }
{
    match listing.all_missing(alloc, Search::Unseen, limit, jobs)? {
        Asked::Full | Asked::Held => Ok(()),
        Asked::Unheld => beyond(&offers.by_client, alloc, listing, offers, limit, jobs),
    }
}

// Where each open client waits.
fn waiting<L: Asking>(
    alloc: Global,
    listing: &L,
    offers: &OffersByNumber,
    limit: usize,
    jobs: &mut Vec<L::Job>,
) -> Result<(), Memory>
    ensures { OnOk result (map L.question_of jobs.new.items ≡ taken_on (L.take listing.now limit) (map L.question_of jobs.old.items)
        (waiting_needed (L.missing listing.now) (L.every_missing listing.now) (L.is_there listing.now) (waiting_of offers.now))) }
{
    if offers.all_wait {
        unseen(alloc, listing, offers, limit, jobs)
    } else {
        Ok(())
    }
}

// Whether the first offer that only asks is answered beyond; where there is none, each open client may wait.
fn asked<L: Asking>(
    alloc: Global,
    listing: &L,
    offers: &OffersByNumber,
    limit: usize,
    jobs: &mut Vec<L::Job>,
) -> Result<(), Memory>
    ensures { OnOk result (map L.question_of jobs.new.items ≡ taken_on (L.take listing.now limit) (map L.question_of jobs.old.items)
        (asked_needed (L.missing listing.now) (L.every_missing listing.now) (L.is_there listing.now) (waiting_of offers.now)
        offers.now.asks.items)) }
{
    match offers.asks.as_slice() {
        [] => waiting(alloc, listing, offers, limit, jobs),
        [offer, ..] => {
            listing.first_missing(alloc, Search::Beyond(*offer), limit, jobs)?;
            Ok(())
        }
    }
}

// No tree is windowed: whether there is one with a mark.
fn marked<L: Asking>(
    alloc: Global,
    listing: &L,
    offers: &OffersByNumber,
    limit: usize,
    jobs: &mut Vec<L::Job>,
) -> Result<(), Memory>
    ensures { OnOk result (map L.question_of jobs.new.items ≡ taken_on (L.take listing.now limit) (map L.question_of jobs.old.items)
        (marked_needed (L.missing listing.now) (L.every_missing listing.now) (L.is_there listing.now) (waiting_of offers.now))) }
{
    match listing.first_missing(alloc, Search::AnyBeyond, limit, jobs)? {
        Asked::Full | Asked::Unheld => Ok(()),
        Asked::Held => asked(alloc, listing, offers, limit, jobs),
    }
}

// No windowed tree meets a pending offer: whether there is a windowed tree.
fn unmet<L: Asking>(
    alloc: Global,
    listing: &L,
    offers: &OffersByNumber,
    limit: usize,
    jobs: &mut Vec<L::Job>,
) -> Result<(), Memory>
    ensures { OnOk result (map L.question_of jobs.new.items ≡ taken_on (L.take listing.now limit) (map L.question_of jobs.old.items)
        (unmet_needed (L.missing listing.now) (L.every_missing listing.now) (L.is_there listing.now) (waiting_of offers.now))) }
{
    match listing.first_missing(alloc, Search::Any, limit, jobs)? {
        Asked::Full => Ok(()),
        Asked::Held => asked(alloc, listing, offers, limit, jobs),
        Asked::Unheld => marked(alloc, listing, offers, limit, jobs),
    }
}

// Which of these offers a windowed tree meets.
fn taken<L: Asking>(
    those: &[u32],
    alloc: Global,
    listing: &L,
    offers: &OffersByNumber,
    limit: usize,
    jobs: &mut Vec<L::Job>,
) -> Result<(), Memory>
    ensures { OnOk result (map L.question_of jobs.new.items ≡ taken_on (L.take listing.now limit) (map L.question_of jobs.old.items)
        (first_needed (L.missing listing.now) (L.every_missing listing.now) (L.is_there listing.now) (waiting_of offers.now)
        meeting those.now
        (unmet_needed (L.missing listing.now) (L.every_missing listing.now) (L.is_there listing.now) (waiting_of offers.now)))) }
{
    match those {
        [] => unmet(alloc, listing, offers, limit, jobs),
        [offer, rest @ ..] => match listing.first_missing(
            alloc,
            Search::Meeting(*offer),
            limit,
            jobs,
        )? {
            Asked::Full | Asked::Held => Ok(()),
            Asked::Unheld => taken(rest, alloc, listing, offers, limit, jobs),
        },
    }
}

/// The first jobs that the next entry still needs and that aren't out, each once, at most `limit`; none where all that it needs, as far as what
/// is known, is out.
pub fn next_jobs<L: Asking>(
    alloc: Global,
    listing: &L,
    offers: &OffersByNumber,
    limit: usize,
) -> Result<Vec<L::Job>, Memory>
    ensures jobs { IfOk result (λ jobs. map L.question_of jobs.items ≡ taken_on (L.take listing.now limit) []
        (next_needed (L.missing listing.now) (L.every_missing listing.now) (L.is_there listing.now) (waiting_of offers.now))) }
{
    let mut jobs = Vec::new(alloc);
    taken(&offers.pending, alloc, listing, offers, limit, &mut jobs)?;
    Ok(jobs)
}
