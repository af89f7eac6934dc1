// How an offer was answered.

ghost use Rattle.std.specs.Prelude.{◌+◌, ◌≡◌, ◌<◌, IfOk, map, option_map};
ghost use Rattle.rule_model.specs.Answers.{answer_of};
ghost use Rattle.rule_model.specs.Events.{event_of};
ghost use Rattle.board_record.specs.Answered as answers;
ghost use Rattle.board_record.specs.Answered.{answered_of};

use log_states::is_named;
use rule_model::action::{Action, Values};
use rule_model::log::Entry;
use rule_model::reply::Reply;
use spec_core::memory::Memory;
use std::alloc::Global;

/// How an offer was answered.
#[derive(Drop)]
pub enum Answered<'a> {
    /// It was taken after so many actions, with these values.
    Taken { at: u64, values: &'a Values },
    /// By a reply.
    Reply(&'a Reply),
    /// All offers were stalled, after so many actions.
    Stalled { at: u64 },
}

impl<'a> Answered<'a> {
    /// The reply to the offer.
    pub fn to_reply(&self, alloc: Global) -> Result<Reply, Memory>
        ensures { IfOk result (λ reply. answer_of reply ≡ answered_of self.now) }
    {
        match self {
            Answered::Taken { at, values } => {
                let values = values.copy(alloc)?;
                Ok(Reply::Taken { at: *at, values })
            }
            Answered::Reply(reply) => reply.copy(alloc),
            Answered::Stalled { at } => Ok(Reply::Stalled { at: *at }),
        }
    }
}

// What an action gives to the offer that it takes.
fn reply_by(at: u64, action: &Action) -> Option<Answered<'_>>
    ensures { option_map answered_of result ≡ answers.reply_by at action.now }
{
    match action {
        Action::Inner => None,
        Action::Exit(_) => None,
        Action::At(_, values) => Some(Answered::Taken { at, values }),
    }
}

// What it gives to the offer of this name, if it takes that.
fn reply_if_taken(
    at: u64,
    action: &Action,
    by: Option<(u32, u64)>,
    name: (u32, u64),
) -> Option<Answered<'_>>
    ensures { option_map answered_of result ≡ answers.reply_if_taken at action.now by name }
{
    match by {
        None => None,
        Some((client, number)) => {
            if client == name.0 && number == name.1 {
                reply_by(at, action)
            } else {
                None
            }
        }
    }
}

/// The reply that an entry gives to the offer of this name, before which there were so many actions. It takes no memory.
pub fn reply_in(at: u64, entry: &Entry, name: (u32, u64)) -> Option<Answered<'_>>
    ensures { option_map answered_of result ≡ answers.reply_in at (event_of entry.now) name }
{
    match entry {
        Entry::Pend(_, _, _, _) => None,
        Entry::Act(action, _, by) => reply_if_taken(at, action, *by, name),
        Entry::Reply(client, number, reply) => {
            if *client == name.0 && *number == name.1 {
                Some(Answered::Reply(reply))
            } else {
                None
            }
        }
        Entry::Stall(names) => {
            if is_named(names, name.0, name.1) {
                Some(Answered::Stalled { at })
            } else {
                None
            }
        }
        Entry::Leave(_) => None,
    }
}

/// How many actions there are with the entry, before which there were so many. It takes no memory.
pub fn actions_with(at: u64, entry: &Entry) -> u64
    requires small { at < 18446744073709551615 }
    ensures { result ≡ answers.actions_with at (event_of entry.now) }
{
    match entry {
        Entry::Pend(_, _, _, _) => at,
        Entry::Act(_, _, _) => at + 1,
        Entry::Reply(_, _, _) => at,
        Entry::Stall(_) => at,
        Entry::Leave(_) => at,
    }
}

/// How the offer of this name was answered first; None where it isn't answered yet. It takes no memory.
pub fn reply_to(entries: &[Entry], name: (u32, u64)) -> Option<Answered<'_>>
    ensures { option_map answered_of result ≡ answers.reply_to 0 (map event_of entries.now) name }
{
    let mut at: u64 = 0;
    for entry in entries {
        if let Some(answered) = reply_in(at, entry, name) {
            return Some(answered);
        }
        at = actions_with(at, entry);
    }
    None
}
