// The numbers of lines.

ghost use Rattle.std.specs.Prelude.{◌≡◌, ◌≤◌, ◌<◌, ◌^◌, length, map};
ghost use Rattle.rule_model.specs.Events.{event_of};
ghost use Rattle.trace_text.specs.Formats as formats;
ghost use Rattle.trace_text.specs.Formats.{actions_in};

use crate::format::Format;
use rule_model::log::Entry;

/// The number, from 1, of the line of the entry of this number, from 0, in a format, where so many actions are before it.
pub fn line_number(format: Format, entry: usize, actions: u64) -> u64
    requires { entry < 2 ^ 63 }
    ensures { result ≡ formats.line_number format entry actions }
{
    match format {
        Format::One => entry as u64 + 2,
        Format::Two => entry as u64 + 2 + actions / 64,
    }
}

// An action is one, and no other entry is.
fn actions_of(entry: &Entry) -> u64
    ensures count { result ≡ formats.actions_of (event_of entry.now) }
    ensures few { result ≤ 1 }
{
    match entry {
        Entry::Act(_, _, _) => 1,
        Entry::Pend(_, _, _, _) => 0,
        Entry::Reply(_, _, _) => 0,
        Entry::Stall(_) => 0,
        Entry::Leave(_) => 0,
    }
}

// How many actions there are in a log.
fn actions_in(entries: &[Entry]) -> u64
    ensures count { result ≡ actions_in (map event_of entries.now) }
{
    let mut actions = 0;
    for entry in entries {
        actions += actions_of(entry);
    }
    actions
}

/// The number, from 1, of the line of the entry of this number, from 0, in the trace of a log in a format.
pub fn entry_line(format: Format, entries: &[Entry], entry: usize) -> u64
    requires { entry ≤ length entries.now }
    ensures { result ≡ formats.entry_line format (map event_of entries.now) entry }
{
    line_number(format, entry, actions_in(&entries[..entry]))
}
