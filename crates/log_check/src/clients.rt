// How many clients a log has.

ghost use Rattle.std.specs.Prelude.{◌≡◌, map};
ghost use Rattle.rule_model.specs.Events.{event_of};
ghost use Rattle.log_check.specs.Starting as starting;

use rule_model::log::Entry;

// The greatest client that these name, 0 where there is none.
fn greatest_named(names: &[(u32, u64)]) -> u32
    ensures { result ≡ starting.greatest_named names.now }
{
    match names {
        [] => 0,
        [first, rest @ ..] => first.0.max(greatest_named(rest)),
    }
}

// The greatest client that an entry names, 0 where it names none.
fn greatest_in(entry: &Entry) -> u32
    ensures { result ≡ starting.greatest_in (event_of entry.now) }
{
    match entry {
        Entry::Pend(client, _, _, _) => *client,
        Entry::Act(_, _, by) => match by {
            None => 0,
            Some(name) => name.0,
        },
        Entry::Reply(client, _, _) => *client,
        Entry::Stall(names) => greatest_named(names),
        Entry::Leave(client) => *client,
    }
}

/// The greatest client that a log names, 0 where it names none. It takes no memory.
pub fn greatest_client(entries: &[Entry]) -> u32
    ensures { result ≡ starting.greatest_client (map event_of entries.now) }
{
    let mut greatest: u32 = 0;
    for entry in entries {
        greatest = greatest.max(greatest_in(entry));
    }
    greatest
}
