// A whole log.

ghost use Rattle.std.specs.Prelude.{IfErr, IfOk, OnOk, map};
ghost use Rattle.spec_core.specs.Code.{program_of};
ghost use Rattle.spec_core.specs.Ready.{IsReady};
ghost use Rattle.rule_model.specs.Events.{event_of};
ghost use Rattle.rule_model.specs.Legal.{IsDerivation, IsPossible};
ghost use Rattle.rule_model.specs.Logs.{events_of};
ghost use Rattle.match_code.specs.Prepared.{program_in};
ghost use Rattle.log_check.specs.Checked.{EntriesAreWithin, Explains, FailsFrom, IsDerivationOf, LogTermsAreWithin};
ghost use Rattle.log_check.specs.Entries.{EntryFails, EntryTermsAreWithin};
ghost use Rattle.log_check.specs.Starting.{BeginsIn};
ghost use Rattle.log_check.specs.Views.{state_of};

use crate::clients::greatest_client;
use crate::entry::take;
use crate::fault::CheckFault;
use crate::reached::Reached;
use log_states::state::SessionState;
use match_code::Prepared;
use rule_model::log::{Entry, Log};
use rule_walk::{FireFault, start};
use spec_core::code::Checked;
use spec_core::memory::Memory;
use std::alloc::Global;

// The state in which a log begins.
fn begin(alloc: Global, checked: &Checked, entries: &[Entry]) -> Result<Reached, Memory>
    requires ready { IsReady (program_of checked.now) }
    ensures { IfOk result (λ s. BeginsIn (program_of checked.now) (map event_of entries.now) (state_of s)) }
{
    let behaviour = start(alloc, checked)?;
    let clients = greatest_client(entries);
    if clients <= 4_294_967_294 {
        let session = SessionState::new(alloc, clients)?;
        Ok(Reached { behaviour, session })
    } else {
        Err(Memory)
    }
}

// Takes the entry of this number, if it is possible.
fn go_on(
    alloc: Global,
    prepared: &Prepared,
    state: &mut Reached,
    entry: &Entry,
    place: u64,
    budget: u64,
) -> Result<(), CheckFault>
    requires ready { IsReady (program_in prepared.now) }
    ensures next { OnOk result (IsPossible (program_in prepared.now) (state_of state.old) (event_of entry.now) (state_of state.new)) }
    ensures within { OnOk result (EntryTermsAreWithin (program_in prepared.now) (state_of state.old) (event_of entry.now) budget) }
    ensures fault { IfErr result (EntryFails (program_in prepared.now) (state_of state.old) (event_of entry.now) place budget) }
{
    match take(alloc, prepared, state, entry, budget) {
        Ok(true) => Ok(()),
        Ok(false) => Err(CheckFault::NotPossible { entry: place }),
        Err(FireFault::Unfit { at: _ }) => unreachable!(),
        Err(FireFault::Spent { term }) => Err(CheckFault::Spent { term }),
        Err(FireFault::TooLarge { term }) => Err(CheckFault::TooLarge { term }),
        Err(FireFault::Memory) => Err(CheckFault::Memory),
    }
}

// Takes entries as long as they are possible.
fn walk(
    alloc: Global,
    prepared: &Prepared,
    state: &mut Reached,
    entries: &[Entry],
    budget: u64,
) -> Result<(), CheckFault>
    requires ready { IsReady (program_in prepared.now) }
    ensures taken { OnOk result (IsDerivation (program_in prepared.now) (map event_of entries.now) (state_of state.old)
        (state_of state.new)) }
    ensures within { OnOk result (EntriesAreWithin (program_in prepared.now) (map event_of entries.now) (state_of state.old) budget) }
    ensures fault { IfErr result (FailsFrom (program_in prepared.now) (map event_of entries.now) (state_of state.old) budget) }
{
    for (place, entry) in entries.iter().enumerate() {
        match go_on(alloc, prepared, state, entry, place as u64, budget) {
            Ok(()) => {}
            Err(fault) => return Err(fault),
        }
    }
    Ok(())
}

/// The number of actions of a log that is a derivation: it begins with the specification's behaviour and as many clients as the greatest
/// that it names, and each entry is possible in the state that those before it lead to. Or the number of the first entry that isn't, from
/// 0; or a term that the tree of an entry before that asks, and that has no value with so many uses of equations (1 to 2^32) or meets a
/// value that is too large. It goes over the log once, and doesn't recur in it.
pub fn check(alloc: Global, prepared: &Prepared, log: &Log, budget: u64) -> Result<u64, CheckFault>
    requires ready { IsReady (program_in prepared.now) }
    ensures derivation { IfOk result (IsDerivationOf (program_in prepared.now) (events_of log.now)) }
    ensures within { OnOk result (LogTermsAreWithin (program_in prepared.now) (events_of log.now) budget) }
    ensures fault { IfErr result (Explains (program_in prepared.now) (events_of log.now) budget) }
{
    let entries = log.as_slice();
    let mut state = begin(alloc, prepared.checked, entries)?;
    match walk(alloc, prepared, &mut state, entries, budget) {
        Ok(()) => Ok(state.session.actions()),
        Err(fault) => Err(fault),
    }
}
