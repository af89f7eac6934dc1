// One entry of a log.

ghost use Rattle.std.specs.Prelude.{◌↔◌, IfErr, IfOk, IsTrue};
ghost use Rattle.rule_model.specs.Legal.{IsReplyAt};
ghost use Rattle.spec_core.specs.Code.{program_of};
ghost use Rattle.spec_core.specs.Ready.{IsReady};
ghost use Rattle.rule_model.specs.Derivations.{derivation_of};
ghost use Rattle.rule_model.specs.Events.{acted, event_of, left, pended, replied, stalled};
ghost use Rattle.rule_model.specs.Answers.{answer_of};
ghost use Rattle.match_code.specs.Prepared.{program_in};
ghost use Rattle.log_check.specs.Entries.{Becomes, EntryExplains, BoundsEntry, NamesNumber};
ghost use Rattle.log_check.specs.Views.{state_of};

use crate::reached::Reached;
use match_code::Prepared;
use rule_laws::laws::trees_determine_steps;
use rule_model::action::Action;
use rule_model::log::Entry;
use rule_model::offer::Offer;
use rule_model::reply::Reply;
use rule_model::rules::Rules;
use rule_walk::{FireFault, fire};
use spec_core::code::Checked;
use std::alloc::Global;

// A client offers.
fn offer(
    alloc: Global,
    checked: &Checked,
    state: &mut Reached,
    client: u32,
    number: u64,
    offered: &Offer,
    ask: bool,
) -> Result<bool, FireFault>
    ensures next { IfOk result (Becomes (program_of checked.now) (state_of state.old) (pended client number offered.now ask)
        (state_of state.new)) }
    ensures cause { IfErr result (EntryExplains (program_of checked.now) (state_of state.old) (pended client number offered.now ask) 0) }
{
    Ok(
        state
            .session
            .offer(alloc, checked.gates.len(), client, number, offered, ask)?,
    )
}

// A client leaves.
fn leave(
    alloc: Global,
    checked: &Checked,
    state: &mut Reached,
    client: u32,
) -> Result<bool, FireFault>
    ensures next { IfOk result (Becomes (program_of checked.now) (state_of state.old) (left client) (state_of state.new)) }
    ensures cause { IfErr result (EntryExplains (program_of checked.now) (state_of state.old) (left client) 0) }
{
    let _ = checked;
    Ok(state.session.leave(alloc, client)?)
}

// The number of actions that a reply names; none where a reply of its kind is an entry of its own.
fn number_in(reply: &Reply) -> Option<u64>
    ensures { NamesNumber (answer_of reply.now) result }
{
    match reply {
        Reply::Taken { at: _, values: _ } => None,
        Reply::Deadlock { at } => Some(*at),
        Reply::Stalled { at: _ } => None,
        Reply::Beyond { at, rules: _ } => Some(*at),
        Reply::NotNow { at } => Some(*at),
        Reply::Ended { at } => Some(*at),
        Reply::Spent { at, term: _ } => Some(*at),
        Reply::TooLarge { at, term: _ } => Some(*at),
        Reply::Limit { at, kind: _ } => Some(*at),
    }
}

// Whether a reply names this number of actions.
fn is_at(reply: &Reply, actions: u64) -> bool
    ensures { IsTrue result ↔ IsReplyAt (answer_of reply.now) actions }
{
    match number_in(reply) {
        None => false,
        Some(at) => at == actions,
    }
}

// An offer is answered.
fn answer(
    alloc: Global,
    checked: &Checked,
    state: &mut Reached,
    client: u32,
    number: u64,
    reply: &Reply,
) -> Result<bool, FireFault>
    ensures next { IfOk result (Becomes (program_of checked.now) (state_of state.old) (replied client number (answer_of reply.now))
        (state_of state.new)) }
    ensures cause { IfErr result (EntryExplains (program_of checked.now) (state_of state.old)
        (replied client number (answer_of reply.now)) 0) }
{
    let _ = checked;
    if state.session.is_pending(client, number) && is_at(reply, state.session.actions()) {
        state.session.answer(alloc, client, number)?;
        Ok(true)
    } else {
        Ok(false)
    }
}

// All pending offers are stalled. It takes no memory.
fn stall(alloc: Global, checked: &Checked, state: &mut Reached, names: &[(u32, u64)]) -> bool
    ensures { Becomes (program_of checked.now) (state_of state.old) (stalled names.now) (state_of state.new) result }
{
    let _ = checked;
    if state.session.may_stall(names) {
        state.session.stall(alloc);
        true
    } else {
        false
    }
}

// An action is done by a tree. What the log alone decides is asked before the tree.
fn act(
    alloc: Global,
    prepared: &Prepared,
    state: &mut Reached,
    action: &Action,
    rules: &Rules,
    by: Option<(u32, u64)>,
    budget: u64,
) -> Result<bool, FireFault>
    requires ready { IsReady (program_in prepared.now) }
    ensures next { IfOk result
        (Becomes (program_in prepared.now) (state_of state.old) (acted action.now (derivation_of rules.now) by) (state_of state.new)) }
    ensures within { IfOk result
        (BoundsEntry (program_in prepared.now) (state_of state.old) (acted action.now (derivation_of rules.now) by) budget) }
    ensures cause { IfErr result
        (EntryExplains (program_in prepared.now) (state_of state.old) (acted action.now (derivation_of rules.now) by) budget) }
{
    if !state.session.agrees(prepared.checked, action, by) {
        return Ok(false);
    }
    match fire(alloc, prepared, &state.behaviour, rules, budget) {
        Ok((done, rest)) => {
            trees_determine_steps();
            if done.same(action) {
                state.session.act(alloc, done, by)?;
                state.behaviour = rest;
                Ok(true)
            } else {
                Ok(false)
            }
        }
        Err(FireFault::Unfit { at: _ }) => Ok(false),
        Err(FireFault::Spent { term }) => Err(FireFault::Spent { term }),
        Err(FireFault::TooLarge { term }) => Err(FireFault::TooLarge { term }),
        Err(FireFault::Memory) => Err(FireFault::Memory),
    }
}

/// Takes an entry if it is possible: then the state is the one that it leads to. The tree of an action is asked with so many uses of
/// equations for each term.
pub fn take(
    alloc: Global,
    prepared: &Prepared,
    state: &mut Reached,
    entry: &Entry,
    budget: u64,
) -> Result<bool, FireFault>
    requires ready { IsReady (program_in prepared.now) }
    ensures next { IfOk result (Becomes (program_in prepared.now) (state_of state.old) (event_of entry.now) (state_of state.new)) }
    ensures within { IfOk result (BoundsEntry (program_in prepared.now) (state_of state.old) (event_of entry.now) budget) }
    ensures cause { IfErr result (EntryExplains (program_in prepared.now) (state_of state.old) (event_of entry.now) budget) }
{
    match entry {
        Entry::Pend(client, number, offered, ask) => {
            offer(
                alloc,
                prepared.checked,
                state,
                *client,
                *number,
                offered,
                *ask,
            )
        }
        Entry::Act(action, rules, by) => act(alloc, prepared, state, action, rules, *by, budget),
        Entry::Reply(client, number, reply) => {
            answer(alloc, prepared.checked, state, *client, *number, reply)
        }
        Entry::Stall(names) => Ok(stall(alloc, prepared.checked, state, names)),
        Entry::Leave(client) => leave(alloc, prepared.checked, state, *client),
    }
}
