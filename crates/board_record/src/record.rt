// The record of a session.

ghost use Rattle.std.specs.Prelude.{◌+◌, ◌++◌, ◌∷◌, ◌≡◌, ◌<◌, ◌≤◌, []};
ghost use Rattle.std.specs.Prelude.{Contains, IfErr, IfOk, OnErr, OnOk, length, map, option_map, vec_len};
ghost use Rattle.std.specs.Vec.{vec_capacity};
ghost use Rattle.spec_core.specs.Code.{program_of};
ghost use Rattle.spec_core.specs.Ready.{IsReady};
ghost use Rattle.board_tree.specs.Steps.{Follows};
ghost use Rattle.board_tree.specs.Views.{shape, IsStep};
ghost use Rattle.rule_model.specs.Answers.{answer_of};
ghost use Rattle.rule_model.specs.Derivations.{derivation_of};
ghost use Rattle.rule_model.specs.Events.{event_of, left, pended, replied, stalled};
ghost use Rattle.rule_model.specs.Legal.{IsIdle, IsPending, IsReplyAt};
ghost use Rattle.rule_model.specs.States.{after_leave, after_offer, after_reply, after_stall};
ghost use Rattle.rule_model.specs.Logs.{events_of};
ghost use Rattle.board_record.specs.Answered.{answered_of, reply_to};
ghost use Rattle.board_record.specs.Faults.{ExplainsLeave, ExplainsPend};
ghost use Rattle.board_record.specs.Records.{IsSession, MayAct};
ghost use Rattle.board_record.specs.Views.{events, program, state, HasActed, HasOneMore, IsActReserved, SameLog, SameSetting, SameTree};
ghost use Rattle.log_states.specs.Possible.{MayLeave, MayOffer, MayStall};
ghost use Rattle.log_states.specs.Views.{state_at};
ghost use Rattle.node_trees.specs.Rests.{expansion_of};
ghost use Rattle.node_trees.specs.Shapes.{stands_for, posted, Lives, IsRight, IsWorkFor, AllWait};

use crate::answered::{Answered, reply_to};
use crate::faults::{LeaveFault, PendFault};
use crate::ready_act::{ReadyAct, ready_act};
use board_tree::tree::Tree;
use log_states::state::SessionState;
use node_trees::expansion::Expansion;
use node_trees::origin::Gen;
use rule_model::log::{Entry, Log};
use rule_model::offer::Offer;
use rule_model::reply::Reply;
use rule_model::rules::Rules;
use spec_core::code::Checked;
use spec_core::memory::Memory;
use std::alloc::Global;
use std::marker::Model;

/// A session: a specification, what happened, the state that this leads to, and the behaviour that is reached as a tree of nodes.
///
/// The log only grows. A call that refuses or wants memory changes nothing.
#[derive(Drop)]
pub struct Record {
    checked: Checked,
    clients: u32,
    entries: Vec<Entry>,
    session: SessionState,
    tree: Tree,
    ready: Option<ReadyAct>,
}

impl Model for Record {
    ghost use Rattle.std.specs.Prelude.{◌-◌, map, vec_len};
    ghost use Rattle.std.specs.Coded.{codes};
    ghost use Rattle.std.specs.Vec.{vec_capacity};
    ghost use Rattle.spec_core.specs.contracts.code.Checked as c;
    ghost use Rattle.spec_core.specs.Code.{program_of};
    ghost use Rattle.board_tree.specs.contracts.tree.Tree as t;
    ghost use Rattle.board_tree.specs.Views.{shape};
    ghost use Rattle.rule_model.specs.contracts.log.Entry as e;
    ghost use Rattle.rule_model.specs.Events.{event_of};
    ghost use Rattle.board_record.specs.contracts.ready_act.ReadyAct as r;
    ghost use Rattle.board_record.specs.Records.{IsRecord, state_with};
    ghost use Rattle.board_record.specs.Views.{RecordView};
    ghost use Rattle.log_states.specs.contracts.state.SessionState as s;

    ghost Value = { RecordView };

    ghost coded = { Prim.hlevel (codes, c.the_row.coded, e.the_row.coded, s.the_row.coded, t.the_row.coded, r.the_row.coded) };

    ghost view = { λ v. record {
      checked = v.checked;
      clients = v.clients;
      entries = v.entries.items;
      session = v.session;
      tree = v.tree;
      ready = v.ready;
      room = vec_capacity v.entries - vec_len v.entries;
    } };

    ghost invariant = { λ v. IsRecord (program_of v.checked) v.clients (map event_of v.entries.items)
        (state_with (program_of v.checked) (shape v.tree) v.session) };
}

// One more entry, for which there is room. It takes no memory.
fn append(entries: &mut Vec<Entry>, entry: Entry)
    requires room { vec_len entries.old < vec_capacity entries.old }
    ensures { entries.new.items ≡ entries.old.items ++ entry ∷ [] }
{
    match entries.push(entry) {
        Ok(()) => {}
        Err(_) => unreachable!(),
    }
}

// A log of these entries.
fn log_of(alloc: Global, entries: Vec<Entry>) -> Result<Log, Memory>
    ensures { IfOk result (λ log. events_of log ≡ map event_of entries.items) }
{
    let mut log = Log::new(alloc);
    for entry in entries {
        log.push(entry)?;
    }
    Ok(log)
}

impl Record {
    /// A session in which nothing happened yet, with so many clients, whose numbers begin with 1.
    pub fn new(alloc: Global, checked: Checked, clients: u32) -> Result<Record, Memory>
        requires ready { IsReady (program_of checked) }
        requires clients { clients ≤ 64 }
        ensures checked { IfOk result (λ r. r.checked ≡ checked) }
        ensures clients { IfOk result (λ r. r.clients ≡ clients) }
        ensures log { IfOk result (λ r. events r ≡ []) }
        ensures waits { IfOk result (λ r. AllWait (shape r.tree)) }
        ensures gone { IfOk result (λ r. r.tree.gone ≡ []) }
        ensures came { IfOk result (λ r. r.tree.came ≡ []) }
    {
        let tree = Tree::new(alloc, &checked)?;
        let session = SessionState::new(alloc, clients)?;
        Ok(Record {
            checked,
            clients,
            entries: Vec::new(alloc),
            session,
            tree,
            ready: None,
        })
    }

    /// The log is a derivation, from the specification's behaviour with the clients to the state, whose behaviour the tree stands for.
    pub fn log_is_a_derivation(&self)
        ensures session { IsSession (program self.now) self.now.clients (events self.now) (state self.now) }
        ensures reached { (state self.now).behaviour ≡ stands_for (program self.now) (shape self.now.tree) }
        ensures ready { IsReady (program self.now) }
    {
        let _ = &self.checked;
    }

    /// The specification. It takes no memory.
    pub fn checked(&self) -> &Checked
        ensures { result.now ≡ self.now.checked }
    {
        &self.checked
    }

    /// How many clients there are, open or not. It takes no memory.
    pub fn clients(&self) -> u32
        ensures { result ≡ self.now.clients }
    {
        self.clients
    }

    /// What happened, in order. It takes no memory.
    pub fn log(&self) -> &[Entry]
        ensures entries { result.now ≡ self.now.entries }
        ensures events { map event_of result.now ≡ events self.now }
    {
        &self.entries
    }

    /// The state, but for the behaviour that is reached: who is open, what is offered, and what was done. It takes no memory.
    pub fn state(&self) -> &SessionState
        ensures { state_at (state self.now).behaviour result.now ≡ state self.now }
    {
        &self.session
    }

    /// The behaviour that is reached. It takes no memory.
    pub fn tree(&self) -> &Tree
        ensures { result.now ≡ self.now.tree }
    {
        &self.tree
    }

    /// How the offer of this client and number was answered; None where it isn't answered yet. It takes no memory.
    pub fn reply_of(&self, client: u32, number: u64) -> Option<Answered<'_>>
        ensures { option_map answered_of result ≡ reply_to 0 (events self.now) (client, number) }
    {
        reply_to(&self.entries, (client, number))
    }

    /// The log as a value of its own.
    pub fn into_log(self, alloc: Global) -> Result<Log, Memory>
        ensures { IfOk result (λ log. events_of log ≡ events self) }
    {
        let Record {
            checked: _,
            clients: _,
            entries,
            session: _,
            tree: _,
            ready: _,
        } = self;
        log_of(alloc, entries)
    }

    // A client that may makes its next offer.
    fn put_offer(
        &mut self,
        alloc: Global,
        client: u32,
        offer: &Offer,
        ask: bool,
    ) -> Result<u64, Memory>
        requires open { Contains (state self.old).open_clients client }
        requires idle { IsIdle (state self.old) client }
        requires gate { offer.now.gate.0 < length (program self.old).gates }
        ensures may { IfOk result (λ n. MayOffer (length (program self.old).gates) (state self.old) client n offer.now) }
        ensures log { IfOk result (λ n. events self.new ≡ events self.old ++ pended client n offer.now ask ∷ []) }
        ensures one_more { OnOk result (HasOneMore self.old self.new) }
        ensures state { IfOk result (λ n. state self.new ≡ after_offer (state self.old) client n offer.now ask) }
        ensures same { OnErr result (SameLog self.old self.new) }
        ensures setting { SameSetting self.old self.new }
        ensures tree { self.new.tree ≡ self.old.tree }
    {
        let number = match self.session.made(client).checked_add(1) {
            None => return Err(Memory),
            Some(number) => number,
        };
        let entry = Entry::Pend(client, number, offer.copy(alloc)?, ask);
        self.entries.reserve(1)?;
        self.session.put_offer(alloc, client, number, offer, ask)?;
        append(&mut self.entries, entry);
        Ok(number)
    }

    /// A client makes its next offer, whose number is the answer, or asks for it.
    pub fn pend(
        &mut self,
        alloc: Global,
        client: u32,
        offer: &Offer,
        ask: bool,
    ) -> Result<u64, PendFault>
        ensures may { IfOk result (λ n. MayOffer (length (program self.old).gates) (state self.old) client n offer.now) }
        ensures log { IfOk result (λ n. events self.new ≡ events self.old ++ pended client n offer.now ask ∷ []) }
        ensures one_more { OnOk result (HasOneMore self.old self.new) }
        ensures state { IfOk result (λ n. state self.new ≡ after_offer (state self.old) client n offer.now ask) }
        ensures fault { IfErr result (ExplainsPend (program self.old) (state self.old) client offer.now) }
        ensures same { OnErr result (SameLog self.old self.new) }
        ensures setting { SameSetting self.old self.new }
        ensures tree { self.new.tree ≡ self.old.tree }
    {
        if !self.session.is_open(client) {
            return Err(PendFault::NotOpen);
        }
        if !self.session.is_idle(client) {
            return Err(PendFault::AlreadyPending);
        }
        if offer.gate.0 as usize >= self.checked.gates.len() {
            return Err(PendFault::NoSuchGate);
        }
        match self.put_offer(alloc, client, offer, ask) {
            Ok(number) => Ok(number),
            Err(Memory) => Err(PendFault::Memory),
        }
    }

    // A client that may leaves.
    fn put_leave(&mut self, alloc: Global, client: u32) -> Result<(), Memory>
        requires may { MayLeave (state self.old) client }
        ensures log { OnOk result (events self.new ≡ events self.old ++ left client ∷ []) }
        ensures one_more { OnOk result (HasOneMore self.old self.new) }
        ensures state { OnOk result (state self.new ≡ after_leave (state self.old) client) }
        ensures same { OnErr result (SameLog self.old self.new) }
        ensures setting { SameSetting self.old self.new }
        ensures tree { self.new.tree ≡ self.old.tree }
    {
        self.entries.reserve(1)?;
        self.session.put_leave(alloc, client)?;
        append(&mut self.entries, Entry::Leave(client));
        Ok(())
    }

    /// A client leaves.
    pub fn leave(&mut self, alloc: Global, client: u32) -> Result<(), LeaveFault>
        ensures may { OnOk result (MayLeave (state self.old) client) }
        ensures log { OnOk result (events self.new ≡ events self.old ++ left client ∷ []) }
        ensures one_more { OnOk result (HasOneMore self.old self.new) }
        ensures state { OnOk result (state self.new ≡ after_leave (state self.old) client) }
        ensures fault { IfErr result (ExplainsLeave (state self.old) client) }
        ensures same { OnErr result (SameLog self.old self.new) }
        ensures setting { SameSetting self.old self.new }
        ensures tree { self.new.tree ≡ self.old.tree }
    {
        if !self.session.is_idle(client) {
            return Err(LeaveFault::Pending);
        }
        if !self.session.is_open(client) {
            return Err(LeaveFault::NotOpen);
        }
        match self.put_leave(alloc, client) {
            Ok(()) => Ok(()),
            Err(Memory) => Err(LeaveFault::Memory),
        }
    }

    /// A pending offer is answered, neither by being taken nor by a stall.
    pub fn reply(
        &mut self,
        alloc: Global,
        client: u32,
        number: u64,
        reply: Reply,
    ) -> Result<(), Memory>
        requires pending { IsPending (state self.old) (client, number) }
        requires at { IsReplyAt (answer_of reply) (state self.old).actions }
        ensures log { OnOk result (events self.new ≡ events self.old ++ replied client number (answer_of reply) ∷ []) }
        ensures one_more { OnOk result (HasOneMore self.old self.new) }
        ensures state { OnOk result (state self.new ≡ after_reply (state self.old) (client, number)) }
        ensures same { OnErr result (SameLog self.old self.new) }
        ensures setting { SameSetting self.old self.new }
        ensures tree { self.new.tree ≡ self.old.tree }
    {
        self.entries.reserve(1)?;
        self.session.answer(alloc, client, number)?;
        append(&mut self.entries, Entry::Reply(client, number, reply));
        Ok(())
    }

    /// All pending offers, which are named so, are stalled.
    pub fn stall(&mut self, alloc: Global, names: Vec<(u32, u64)>) -> Result<(), Memory>
        requires may { MayStall (state self.old) names.items }
        ensures log { OnOk result (events self.new ≡ events self.old ++ stalled names.items ∷ []) }
        ensures one_more { OnOk result (HasOneMore self.old self.new) }
        ensures state { OnOk result (state self.new ≡ after_stall (state self.old)) }
        ensures same { OnErr result (SameLog self.old self.new) }
        ensures setting { SameSetting self.old self.new }
        ensures tree { self.new.tree ≡ self.old.tree }
    {
        self.entries.reserve(1)?;
        self.session.stall(alloc);
        append(&mut self.entries, Entry::Stall(names));
        Ok(())
    }

    /// Expands the node of a live generation. The work is what its origin can do, if the tree is to be right. It takes no memory.
    pub fn post(&mut self, generation: Gen, work: Expansion)
        requires lives { Lives (shape self.old.tree) generation.0 }
        ensures posted { shape self.new.tree ≡ posted generation.0 (expansion_of work) (shape self.old.tree) }
        ensures right { IsWorkFor (program self.old) (shape self.old.tree) generation.0 (expansion_of work) →
            IsRight (program self.old) (shape self.old.tree) → IsRight (program self.old) (shape self.new.tree) }
        ensures next { self.new.tree.next ≡ self.old.tree.next }
        ensures gone { self.new.tree.gone ≡ self.old.tree.gone }
        ensures came { self.new.tree.came ≡ self.old.tree.came }
        ensures same { SameLog self.old self.new }
        ensures setting { SameSetting self.old self.new }
    {
        self.tree.post(generation, work);
    }

    /// Makes ready all that the action by these rules needs, where it takes the offer named. All else stays as it is, also where there is
    /// no memory.
    pub fn reserve_act(
        &mut self,
        alloc: Global,
        rules: &Rules,
        by: Option<(u32, u64)>,
    ) -> Result<(), Memory>
        ensures reserved { OnOk result (IsActReserved self.new (derivation_of rules.now) by) }
        ensures tree { SameTree self.old self.new }
        ensures same { SameLog self.old self.new }
        ensures setting { SameSetting self.old self.new }
    {
        self.entries.reserve(1)?;
        self.tree.reserve_step(alloc, &self.checked, rules)?;
        let action = self.tree.action_next();
        let ready = ready_act(alloc, &self.session, action, by)?;
        self.ready = Some(ready);
        Ok(())
    }

    /// The action by these rules, which was made ready, and since then nothing has changed. It takes no memory.
    pub fn act(&mut self, rules: Rules, by: Option<(u32, u64)>)
        requires reserved { IsActReserved self.old (derivation_of rules) by }
        requires may { MayAct (program self.old) (state self.old) (derivation_of rules) by }
        requires right { IsRight (program self.old) (shape self.old.tree) }
        requires follows { Follows (shape self.old.tree) (derivation_of rules) }
        ensures acted { HasActed self.old self.new (derivation_of rules) by }
        ensures step { IsStep (program self.old) (shape self.old.tree) self.old.tree.next (derivation_of rules)
            (shape self.new.tree) self.new.tree.next self.new.tree.gone self.new.tree.came }
        ensures setting { SameSetting self.old self.new }
    {
        self.tree.step(&self.checked, &rules);
        match self.ready.take() {
            Some(ready) => {
                let ReadyAct { state, action } = ready;
                self.session = state;
                append(&mut self.entries, Entry::Act(action, rules, by));
            }
            None => unreachable!(),
        }
    }
}
