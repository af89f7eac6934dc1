// Counting what a log has of each kind.

ghost use Rattle.std.specs.Prelude.{◌≡◌, ◌+◌, IfOk, map};
ghost use Rattle.rule_model.specs.Events.{event_of};
ghost use Rattle.command_selfrun.specs.Tallies.{counts_in, counts_of, plus, taking, unseen};

use crate::counts::Counts;
use rule_model::action::Action;
use rule_model::log::Entry;
use spec_core::memory::Memory;

// One where an action takes an offer.
fn taking(by: Option<(u32, u64)>) -> u64
    ensures { result ≡ taking by }
{
    match by {
        None => 0,
        Some(_) => 1,
    }
}

// One where an action is internal.
fn unseen(action: &Action) -> u64
    ensures { result ≡ unseen action.now }
{
    match action {
        Action::Inner => 1,
        Action::Exit(_) => 0,
        Action::At(..) => 0,
    }
}

// So many offers that are answered, but not by being taken.
fn answered(count: usize) -> Counts
    ensures { result ≡ record { actions = 0; taken = 0; internal = 0; other = count } }
{
    Counts {
        actions: 0,
        taken: 0,
        internal: 0,
        other: count as u64,
    }
}

// What one entry has of each kind.
fn counts_in(entry: &Entry) -> Counts
    ensures { result ≡ counts_in (event_of entry.now) }
{
    match entry {
        Entry::Act(action, _, by) => Counts {
            actions: 1,
            taken: taking(*by),
            internal: unseen(action),
            other: 0,
        },
        Entry::Pend(..) => answered(0),
        Entry::Reply(..) => answered(1),
        Entry::Stall(names) => answered(names.len()),
        Entry::Leave(_) => answered(0),
    }
}

// The sum of two numbers.
fn sum(one: u64, other: u64) -> Result<u64, Memory>
    ensures { IfOk result (λ s. s ≡ one + other) }
{
    match one.checked_add(other) {
        None => Err(Memory),
        Some(sum) => Ok(sum),
    }
}

// What two parts of a log have together.
fn plus(one: Counts, other: Counts) -> Result<Counts, Memory>
    ensures { IfOk result (λ c. c ≡ plus one other) }
{
    Ok(Counts {
        actions: sum(one.actions, other.actions)?,
        taken: sum(one.taken, other.taken)?,
        internal: sum(one.internal, other.internal)?,
        other: sum(one.other, other.other)?,
    })
}

// What a log has of each kind. More than a number of 64 bits tells is want of memory.
pub fn counts_of(entries: &[Entry]) -> Result<Counts, Memory>
    ensures { IfOk result (λ c. c ≡ counts_of (map event_of entries.now)) }
{
    let mut counts = answered(0);
    for entry in entries {
        counts = plus(counts, counts_in(entry))?;
    }
    Ok(counts)
}
