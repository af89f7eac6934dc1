// The state of a session.

ghost use Rattle.std.specs.Prelude.{◌+◌, ◌&&◌, ◌≡◌, ◌↔◌, ◌<◌, ◌≤◌, Contains, IfOk, IsTrue, OnErr, OnOk, false, length, map};
ghost use Rattle.spec_core.specs.Code.{program_of};
ghost use Rattle.spec_core.specs.Theories.{theory_of};
ghost use Rattle.rule_model.specs.Behaviours.{Behaviour};
ghost use Rattle.rule_model.specs.Legal.{AllWait, IsAgreed, IsIdle, IsPending, IsPendingAnd, NamesAll};
ghost use Rattle.rule_model.specs.Meets.{IsUnseen, Meets};
ghost use Rattle.rule_model.specs.States as states;
ghost use Rattle.log_states.specs.Clients.{is_open_among, numbers_from};
ghost use Rattle.log_states.specs.Pending.{WaitsAnd, all_wait_among, is_idle_among, names_all, names_only, waits_among};
ghost use Rattle.log_states.specs.Possible.{HasPending, MayOffer, MayLeave, MayStall};
ghost use Rattle.log_states.specs.Views.{pending_of, state_at, state_of};

use crate::clients::Client;
use crate::naming::{is_ascending, names_all, names_only};
use crate::pending::Pending;
use crate::{clients, pending};
use rule_model::action::Action;
use rule_model::offer::Offer;
use spec_core::code::Checked;
use spec_core::equation::DataSpec;
use spec_core::items::Gate;
use spec_core::memory::Memory;
use std::alloc::Global;

/// The state of a session, but for the behaviour that is reached: the open clients, the pending offers in the order in which they were
/// made, how many offers each client has made, how many actions there were, and the last one. Contracts see it as a `State`, and speak of
/// each behaviour that may be reached.
///
/// A call answers false where the entry isn't possible. What answers false or an error changes nothing.
#[derive(Drop)]
pub struct SessionState {
    clients: Vec<Client>,
    pending: Vec<Pending>,
    actions: u64,
    last: Option<Action>,
}

impl SessionState {
    /// The state at the beginning, with so many clients, whose numbers begin with 1.
    pub fn new(alloc: Global, clients: u32) -> Result<SessionState, Memory>
        requires numbers { clients ≤ 4294967294 }
        ensures start { IfOk result (λ s. (b : Behaviour) → state_at b s ≡ states.start_state b (numbers_from 1 clients)) }
    {
        Ok(SessionState {
            clients: clients::new_clients(alloc, 1, clients)?,
            pending: Vec::new(alloc),
            actions: 0,
            last: None,
        })
    }

    /// How many actions there were. It takes no memory.
    pub fn actions(&self) -> u64
        ensures { result ≡ (state_of self.now).actions }
    {
        self.actions
    }

    /// The last action, if there was one. It takes no memory.
    pub fn last(&self) -> &Option<Action>
        ensures { result.now ≡ (state_of self.now).last }
    {
        &self.last
    }

    /// The pending offers, in the order in which they were made. It takes no memory.
    pub fn pending(&self) -> &[Pending]
        ensures { map pending_of result.now ≡ (state_of self.now).pending }
    {
        &self.pending
    }

    fn finds_open(&self, client: u32) -> bool
        ensures { result ≡ is_open_among self.now.clients.items client }
    {
        clients::is_open(&self.clients, client)
    }

    /// Whether the client is open. It takes no memory.
    pub fn is_open(&self, client: u32) -> bool
        ensures { IsTrue result ↔ Contains (state_of self.now).open_clients client }
    {
        self.finds_open(client)
    }

    /// How many clients are open. It takes no memory.
    pub fn open_clients(&self) -> usize
        ensures { result ≡ length (state_of self.now).open_clients }
    {
        clients::count_open(&self.clients)
    }

    fn finds_none(&self, client: u32) -> bool
        ensures { result ≡ is_idle_among (map pending_of self.now.pending.items) client }
    {
        pending::is_idle(&self.pending, client)
    }

    /// Whether the client has no offer pending. It takes no memory.
    pub fn is_idle(&self, client: u32) -> bool
        ensures idle { IsTrue result ↔ IsIdle (state_of self.now) client }
        ensures waits { (b : Behaviour) → result ≡ false → HasPending (state_at b self.now) client }
    {
        self.finds_none(client)
    }

    /// How many offers the client has made, none where there is no such client. It takes no memory.
    pub fn made(&self, client: u32) -> u64
        ensures { result ≡ (state_of self.now).made client }
    {
        clients::made(&self.clients, client)
    }

    fn finds_all(&self) -> bool
        ensures { result ≡ all_wait_among self.now.clients.items (map pending_of self.now.pending.items) }
    {
        pending::all_wait(&self.clients, &self.pending)
    }

    /// Whether each open client has an offer pending. It takes no memory.
    pub fn all_wait(&self) -> bool
        ensures { (b : Behaviour) → IsTrue result ↔ AllWait (state_at b self.now) }
    {
        self.finds_all()
    }

    // Whether the client is open and has no offer pending.
    fn is_free(&self, client: u32) -> bool
        ensures { (b : Behaviour) → IsTrue result ↔ MayLeave (state_at b self.now) client }
    {
        self.finds_open(client) && self.finds_none(client)
    }

    // Whether this is the number of the client's next offer.
    fn is_next(&self, client: u32, number: u64) -> bool
        ensures { IsTrue result ↔ (number ≡ (state_of self.now).made client + 1) }
    {
        number != 0 && self.made(client) == number - 1
    }

    // Whether this is the number of the client's next offer, and the gate one of so many.
    fn fits(&self, gates: usize, client: u32, number: u64, gate: Gate) -> bool
        ensures { IsTrue result ↔ (number ≡ (state_of self.now).made client + 1) × (gate.0 < gates) }
    {
        self.is_next(client, number) && (gate.0 as usize) < gates
    }

    // Whether a client may make its offer of this number, at one of so many gates.
    fn may_offer(&self, gates: usize, client: u32, number: u64, offer: &Offer) -> bool
        ensures { (b : Behaviour) → IsTrue result ↔ MayOffer gates (state_at b self.now) client number offer.now }
    {
        self.is_free(client) && self.fits(gates, client, number, offer.gate)
    }

    /// A client that may makes its offer of this number.
    pub fn put_offer(
        &mut self,
        alloc: Global,
        client: u32,
        number: u64,
        offer: &Offer,
        ask: bool,
    ) -> Result<(), Memory>
        requires open { Contains (state_of self.now).open_clients client }
        requires next { number ≡ (state_of self.now).made client + 1 }
        ensures made { OnOk result ((b : Behaviour) →
            state_at b self.new ≡ states.after_offer (state_at b self.old) client number offer.now ask) }
        ensures same { OnErr result ((b : Behaviour) → state_at b self.new ≡ state_at b self.old) }
    {
        let offer = offer.copy(alloc)?;
        let clients = clients::with_made(alloc, &self.clients, client, number)?;
        let waiting = Pending {
            client,
            number,
            offer,
            ask,
        };
        pending::add(&mut self.pending, waiting)?;
        self.clients = clients;
        Ok(())
    }

    /// A client that may leaves.
    pub fn put_leave(&mut self, alloc: Global, client: u32) -> Result<(), Memory>
        ensures left { OnOk result ((b : Behaviour) →
            state_at b self.new ≡ states.after_leave (state_at b self.old) client) }
        ensures same { OnErr result ((b : Behaviour) → state_at b self.new ≡ state_at b self.old) }
    {
        self.clients = clients::without(alloc, &self.clients, client)?;
        Ok(())
    }

    /// A client makes its offer of this number, if it may, at one of so many gates. Where it may not, nothing changes.
    pub fn offer(
        &mut self,
        alloc: Global,
        gates: usize,
        client: u32,
        number: u64,
        offer: &Offer,
        ask: bool,
    ) -> Result<bool, Memory>
        ensures made { IfOk result (λ done. IsTrue done → (b : Behaviour) → MayOffer gates (state_at b self.old) client number offer.now ×
            (state_at b self.new ≡ states.after_offer (state_at b self.old) client number offer.now ask)) }
        ensures refused { IfOk result (λ done. done ≡ false → (b : Behaviour) →
            (MayOffer gates (state_at b self.old) client number offer.now → ⊥) × (state_at b self.new ≡ state_at b self.old)) }
        ensures same { OnErr result ((b : Behaviour) → state_at b self.new ≡ state_at b self.old) }
    {
        if self.may_offer(gates, client, number, offer) {
            self.put_offer(alloc, client, number, offer, ask)?;
            Ok(true)
        } else {
            Ok(false)
        }
    }

    /// A client leaves, if it may.
    pub fn leave(&mut self, alloc: Global, client: u32) -> Result<bool, Memory>
        ensures left { IfOk result (λ done. IsTrue done → (b : Behaviour) → MayLeave (state_at b self.old) client ×
            (state_at b self.new ≡ states.after_leave (state_at b self.old) client)) }
        ensures refused { IfOk result (λ done. done ≡ false → (b : Behaviour) → (MayLeave (state_at b self.old) client → ⊥) ×
            (state_at b self.new ≡ state_at b self.old)) }
        ensures same { OnErr result ((b : Behaviour) → state_at b self.new ≡ state_at b self.old) }
    {
        if self.is_free(client) {
            self.put_leave(alloc, client)?;
            Ok(true)
        } else {
            Ok(false)
        }
    }

    // Whether the offer of this client and number is pending.
    fn waits(&self, client: u32, number: u64) -> bool
        ensures { result ≡ waits_among (map pending_of self.now.pending.items) client number }
    {
        pending::waits(&self.pending, client, number)
    }

    /// Whether the offer of this client and number is pending. It takes no memory.
    pub fn is_pending(&self, client: u32, number: u64) -> bool
        ensures { (b : Behaviour) → IsTrue result ↔ IsPending (state_at b self.now) (client, number) }
    {
        self.waits(client, number)
    }

    /// The offer of this client and number, which is answered, is no longer pending.
    pub fn answer(&mut self, alloc: Global, client: u32, number: u64) -> Result<(), Memory>
        ensures answered { OnOk result ((b : Behaviour) →
            state_at b self.new ≡ states.after_reply (state_at b self.old) (client, number)) }
        ensures same { OnErr result ((b : Behaviour) → state_at b self.new ≡ state_at b self.old) }
    {
        self.pending = pending::without(alloc, &self.pending, client, number)?;
        Ok(())
    }

    // Whether a list names all pending offers, and no others.
    fn names_just(&self, names: &[(u32, u64)]) -> bool
        ensures { result ≡ names_all names.now (map pending_of self.now.pending.items)
            && names_only names.now (map pending_of self.now.pending.items) }
    {
        names_all(names, &self.pending) && names_only(names, &self.pending)
    }

    // Whether it does so by ascending client.
    fn are_named(&self, names: &[(u32, u64)]) -> bool
        ensures { (b : Behaviour) → IsTrue result ↔ NamesAll (state_at b self.now) names.now }
    {
        is_ascending(names) && self.names_just(names)
    }

    /// Whether the pending offers may be stalled, named so. It takes no memory.
    pub fn may_stall(&self, names: &[(u32, u64)]) -> bool
        ensures { (b : Behaviour) → IsTrue result ↔ MayStall (state_at b self.now) names.now }
    {
        !names.is_empty() && self.are_named(names)
    }

    /// All pending offers are stalled. It takes no memory.
    pub fn stall(&mut self, alloc: Global)
        ensures { (b : Behaviour) → state_at b self.new ≡ states.after_stall (state_at b self.old) }
    {
        self.pending = Vec::new(alloc);
    }

    fn has_taker(&self, algebra: &DataSpec, client: u32, number: u64, action: &Action) -> bool
        ensures { IsTrue result ↔ WaitsAnd (Meets (theory_of algebra.now) action.now)
            (map pending_of self.now.pending.items) client number }
    {
        pending::takes(algebra, &self.pending, client, number, action)
    }

    // Whether the offer of this client and number is pending, and the action meets it.
    fn takes(&self, checked: &Checked, client: u32, number: u64, action: &Action) -> bool
        ensures { (b : Behaviour) →
            IsTrue result ↔ IsPendingAnd (state_at b self.now) (client, number) (Meets (program_of checked.now).theory action.now) }
    {
        self.has_taker(&checked.algebra, client, number, action)
    }

    /// Whether these may take part in an action: nobody in one that isn't seen, and else a client whose pending offer it meets. It takes no
    /// memory.
    pub fn agrees(&self, checked: &Checked, action: &Action, by: Option<(u32, u64)>) -> bool
        ensures { (b : Behaviour) → IsTrue result ↔ IsAgreed (program_of checked.now) (state_at b self.now) action.now by }
    {
        match by {
            None => is_unseen(action),
            Some((client, number)) => self.takes(checked, client, number, action),
        }
    }

    /// An action was done, which took the offer named.
    pub fn act(
        &mut self,
        alloc: Global,
        action: Action,
        by: Option<(u32, u64)>,
    ) -> Result<(), Memory>
        ensures done { OnOk result ((rest : Behaviour) →
            state_at rest self.new ≡ states.after_action (state_of self.old) action by rest) }
        ensures same { OnErr result ((b : Behaviour) → state_at b self.new ≡ state_at b self.old) }
    {
        match self.actions.checked_add(1) {
            None => Err(Memory),
            Some(actions) => {
                if let Some((client, number)) = by {
                    self.answer(alloc, client, number)?;
                }
                self.actions = actions;
                self.last = Some(action);
                Ok(())
            }
        }
    }

    /// The state after an action, which takes the offer named.
    pub fn acted(
        &self,
        alloc: Global,
        action: Action,
        by: Option<(u32, u64)>,
    ) -> Result<SessionState, Memory>
        ensures { IfOk result (λ s. (rest : Behaviour) →
            state_at rest s ≡ states.after_action (state_of self.now) action by rest) }
    {
        match self.actions.checked_add(1) {
            None => Err(Memory),
            Some(actions) => Ok(SessionState {
                clients: Vec::from_slice(alloc, &self.clients)?,
                pending: pending::without_taken(alloc, &self.pending, by)?,
                actions,
                last: Some(action),
            }),
        }
    }
}

fn is_unseen(action: &Action) -> bool
    ensures { IsTrue result ↔ IsUnseen action.now }
{
    match action {
        Action::Inner => true,
        Action::Exit(_) => true,
        Action::At(_, _) => false,
    }
}
