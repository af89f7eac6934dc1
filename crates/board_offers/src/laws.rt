// What follows from the definitions: each law is the contract of a function that does nothing.

ghost use Rattle.board_offers.specs.Laws.{WaitingIsSound, AllWaitIsDecided, LeastIsLeast, PendingClientsDiffer, StallsNameAll};
ghost use Rattle.board_offers.specs.Laws.{OwnNamesArePending, NumbersAreOfOffers, EntriesAreForOffers};

/// What the rules ask of the pending offers is sound: each offer that only asks is pending, and those by client are those that are pending.
pub fn waiting_is_sound()
    ensures { WaitingIsSound }
{}

/// Whether all wait tells that each open client has an offer pending.
pub fn all_wait_is_decided()
    ensures { AllWaitIsDecided }
{}

/// The first offer by client is pending, and no pending offer is of a smaller client.
pub fn least_is_least()
    ensures { LeastIsLeast }
{}

/// Where no two pending offers are of one client, none are after a derivation.
pub fn pending_clients_differ()
    ensures { PendingClientsDiffer }
{}

/// Where some offers are pending, no two of one client, they may be stalled by their names in the order of clients.
pub fn stalls_name_all()
    ensures { StallsNameAll }
{}

/// An offer that is pending is so by its name.
pub fn own_names_are_pending()
    ensures { OwnNamesArePending }
{}

/// Each number below the number of offers is that of one of them.
pub fn numbers_are_of_offers()
    ensures { NumbersAreOfOffers }
{}

/// What the rules decide for numbers of offers is for one of these offers.
pub fn entries_are_for_offers<A>()
    ensures { EntriesAreForOffers A }
{}
