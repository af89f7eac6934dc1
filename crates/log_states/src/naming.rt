// Lists of the names of offers.

ghost use Rattle.std.specs.Prelude.{◌≡◌, map};
ghost use Rattle.log_states.specs.Pending as pending;
ghost use Rattle.log_states.specs.Views.{pending_of};

use crate::pending::{Pending, waits};

/// Whether the list names the offer of this client and number. It takes no memory.
pub fn is_named(names: &[(u32, u64)], client: u32, number: u64) -> bool
    ensures { result ≡ pending.is_named names.now client number }
{
    match names {
        [] => false,
        [first, rest @ ..] => {
            first.0 == client && first.1 == number || is_named(rest, client, number)
        }
    }
}

/// Whether the list names all of these.
pub fn names_all(names: &[(u32, u64)], all: &[Pending]) -> bool
    ensures { result ≡ pending.names_all names.now (map pending_of all.now) }
{
    match all {
        [] => true,
        [first, rest @ ..] => {
            is_named(names, first.client, first.number) && names_all(names, rest)
        }
    }
}

/// Whether the list names none but these.
pub fn names_only(names: &[(u32, u64)], all: &[Pending]) -> bool
    ensures { result ≡ pending.names_only names.now (map pending_of all.now) }
{
    match names {
        [] => true,
        [first, rest @ ..] => waits(all, first.0, first.1) && names_only(rest, all),
    }
}

// Whether the client is below the first one of the list.
fn comes_before(client: u32, names: &[(u32, u64)]) -> bool
    ensures { result ≡ pending.comes_before client names.now }
{
    match names {
        [] => true,
        [first, ..] => client < first.0,
    }
}

/// Whether each client in the list is below the next one.
pub fn is_ascending(names: &[(u32, u64)]) -> bool
    ensures { result ≡ pending.is_ascending names.now }
{
    match names {
        [] => true,
        [first, rest @ ..] => comes_before(first.0, rest) && is_ascending(rest),
    }
}
