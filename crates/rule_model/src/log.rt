// What happens in a session.

ghost use Rattle.std.specs.Prelude.{◌≡◌, ◌++◌, ◌∷◌, [], IfOk, OnOk, OnErr, map};
ghost use Rattle.rule_model.specs.Events.{event_of};

use crate::action::Action;
use crate::offer::Offer;
use crate::reply::{LimitKind, Reply};
use crate::rules::Rules;
use spec_core::memory::Memory;
use spec_core::term::Term;
use std::alloc::Global;

/// One thing that happened, which contracts see as an `Event`. A client is named by its number, from 1, and an offer
/// by its client and its number there, from 1.
#[derive(Drop)]
pub enum Entry {
    /// A client offers, or asks where the last part is true.
    Pend(u32, u64, Offer, bool),
    /// An action is done by a tree, and takes an offer where one is named.
    Act(Action, Rules, Option<(u32, u64)>),
    /// An offer is answered, neither by being taken nor by a stall.
    Reply(u32, u64, Reply),
    /// All pending offers are stalled.
    Stall(Vec<(u32, u64)>),
    /// A client leaves.
    Leave(u32),
}

impl Entry {
    /// An equal entry.
    pub fn copy(&self, alloc: Global) -> Result<Entry, Memory>
        ensures equal { IfOk result (λ entry. event_of entry ≡ event_of self.now) }
    {
        match self {
            Entry::Pend(client, number, offer, ask) => {
                let offer = offer.copy(alloc)?;
                Ok(Entry::Pend(*client, *number, offer, *ask))
            }
            Entry::Act(action, rules, by) => {
                let action = action.copy(alloc)?;
                let rules = rules.copy(alloc)?;
                Ok(Entry::Act(action, rules, *by))
            }
            Entry::Reply(client, number, reply) => {
                let reply = reply.copy(alloc)?;
                Ok(Entry::Reply(*client, *number, reply))
            }
            Entry::Stall(names) => Ok(Entry::Stall(Vec::from_slice(alloc, names)?)),
            Entry::Leave(client) => Ok(Entry::Leave(*client)),
        }
    }
}

/// What happened, in order, which contracts see as the list of its events.
#[derive(Drop)]
pub struct Log {
    entries: Vec<Entry>,
}

impl Log {
    ghost use Rattle.rule_model.specs.Logs.{events_of};

    /// Nothing happened yet. It takes no memory.
    pub fn new(alloc: Global) -> Log
        ensures { events_of result ≡ [] }
    {
        Log {
            entries: Vec::new(alloc),
        }
    }

    /// The entries as a slice. It takes no memory.
    pub fn as_slice(&self) -> &[Entry]
        ensures { map event_of result.now ≡ events_of self.now }
    {
        self.entries.as_slice()
    }

    /// An equal log.
    pub fn copy(&self, alloc: Global) -> Result<Log, Memory>
        ensures equal { IfOk result (λ log. events_of log ≡ events_of self.now) }
    {
        let mut entries = Vec::new(alloc);
        for entry in &self.entries {
            entries.push(entry.copy(alloc)?)?;
        }
        Ok(Log { entries })
    }

    /// Adds an entry.
    pub fn push(&mut self, entry: Entry) -> Result<(), Memory>
        ensures ok { OnOk result (events_of self.new ≡ events_of self.old ++ event_of entry ∷ []) }
        ensures err { OnErr result (events_of self.new ≡ events_of self.old) }
    {
        self.entries.push(entry)?;
        Ok(())
    }
}

/// How a session ended, which contracts see as an `Ending`.
#[derive(Drop)]
pub enum End {
    /// The last action was the successful termination.
    Exit,
    /// Nothing can be done any more.
    Deadlock,
    /// Something can be done.
    Waiting,
    /// Whether something can be done is beyond the windows.
    Beyond,
    /// The evaluation of the term passes the budget.
    Spent(Term),
    /// The evaluation of the term meets a value of more than 65,536 symbols.
    TooLarge(Term),
    /// A limit was exceeded.
    Limit(LimitKind),
}
