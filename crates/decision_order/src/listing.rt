// Searches among candidates, as far as what is known.

ghost use Rattle.std.specs.Prelude.{ℕ, ◌≡◌, IfOk, List, Option};
ghost use Rattle.decision_trees.specs.Rules.{Query};
ghost use Rattle.decision_order.specs.Searches.{query_of, first_of, all_of};

use spec_core::memory::Memory;
use std::alloc::Global;

/// What is looked for: candidates within the windows that meet the offer with a number, all of them, and those for unseen actions;
/// candidates with marks for an offer, all of them, and those for an offer or for an unseen action.
#[derive(Clone, Copy)]
pub enum Search {
    Meeting(u32),
    Any,
    Unseen,
    Beyond(u32),
    AnyBeyond,
    BeyondOrUnseen(u32),
}

/// The first candidate that holds; that there is none; or that it isn't known.
#[derive(Drop)]
pub enum First<F> {
    Open,
    Absent,
    Is(F),
}

/// All candidates that hold, in order; or that they aren't known.
#[derive(Drop)]
pub enum All<F> {
    Undecided,
    These(Vec<F>),
}

/// Numbers of offers: the pending ones in the order of the log, those that only ask by client, all of them by client; and whether each open
/// client has one.
#[derive(Drop)]
pub struct OffersByNumber {
    pub pending: Vec<u32>,
    pub asks: Vec<u32>,
    pub by_client: Vec<u32>,
    pub all_wait: bool,
}

/// Lists of candidates, of which some wait for nodes that aren't expanded, or for verdicts.
pub trait Listing {
    /// A candidate that was found.
    type Found: Drop;

    /// What candidates are.
    ghost Candidate: { Type 0 };

    ghost candidate_of: { Self.Found → Candidate };

    ghost find: { Self → Query ℕ → Option (Option Candidate) };

    ghost every: { Self → Query ℕ → Option (List Candidate) };

    /// The first candidate that holds.
    fn first(&self, alloc: Global, search: Search) -> Result<First<Self::Found>, Memory>
        ensures { IfOk result (λ f. first_of candidate_of f ≡ find self.now (query_of search)) };

    /// All candidates that hold.
    fn all(&self, alloc: Global, search: Search) -> Result<All<Self::Found>, Memory>
        ensures { IfOk result (λ a. all_of candidate_of a ≡ every self.now (query_of search)) };
}
