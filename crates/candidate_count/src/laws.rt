// What follows from the definitions: each law is the contract of a function that does nothing.

ghost use Rattle.candidate_count.specs.Examples.{OffersAreAsWorked};
ghost use Rattle.candidate_count.specs.Laws.{TreesHaveNoMoreOffers};

/// A tree of nodes, where the plans of each that is expanded are those that its origin's constructs make, has no more possible agreements
/// than the behaviour for which it stands.
pub fn trees_have_no_more_offers()
    ensures { TreesHaveNoMoreOffers }
{}

/// Worked numbers of possible agreements.
pub fn offers_are_as_worked()
    ensures { OffersAreAsWorked }
{}
