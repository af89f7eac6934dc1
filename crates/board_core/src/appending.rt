// The entries that the board appends.

ghost use Rattle.std.specs.Prelude.{ℕ, ◌≡◌, ◌↔◌, ◌∷◌, ◌++◌, ◌<◌, [], IfOk, IfSome, IfNone, IsSome, IsTrue, OnOk, OnErr, None, Some};
ghost use Rattle.std.specs.Prelude.{false, length, map, option_map};
ghost use Rattle.rule_model.specs.Derivations.{Derivation};
ghost use Rattle.rule_model.specs.States.{PendingOffer};
ghost use Rattle.candidate_verdicts.specs.Views.{IsStep};
ghost use Rattle.candidates.specs.Models.{job_of};
ghost use Rattle.board_laws.specs.Rules.{Next, takes, deadlocks, is_beyond, is_not_now, goes_on, stalls};
ghost use Rattle.rule_model.specs.Answering.{name_of};
ghost use Rattle.rule_model.specs.Answers.{answer_of, limit};
ghost use Rattle.rule_model.specs.Derivations.{derivation_of};
ghost use Rattle.rule_model.specs.Events.{replied, stalled};
ghost use Rattle.rule_model.specs.Legal.{AllWait, IsPending, IsPossible, IsReplyAt};
ghost use Rattle.board_laws.specs.Lazy.{first};
ghost use Rattle.std.specs.List.{slice_get};
ghost use Rattle.candidate_verdicts.specs.Stored.{without};
ghost use Rattle.board_record.specs.Views.{HasActed, IsActReserved};
ghost use Rattle.board_laws.specs.Next.{HasEnded, GoesByRules};
ghost use Rattle.log_states.specs.Possible.{MayStall};
ghost use Rattle.log_states.specs.Views.{pending_of};
ghost use Rattle.board_offers.specs.Offers.{offer_at};
ghost use Rattle.board_offers.specs.Waiting.{by_client};
ghost use Rattle.board_core.specs.Entries.{entry_of, OfAct};
ghost use Rattle.board_core.specs.Awaiting.{AwaitsClients};
ghost use Rattle.board_core.specs.Settled.{AnswersLeast, AppendsAlone, HasSettled, HasStepped, IsDue, IsKnownAtLimit, IsQuiet, IsUnchanged, MayFollow};
ghost use Rattle.board_core.specs.Working.{KeepsNodes, jobs_left};
ghost use Rattle.board_core.specs.Views.{program, events, state, tree, pieces, decided_at, SameLog, SameSession, SameNodes};

use crate::board::Board;
use crate::copying::generation_of;
use board_laws::drawing::drawn;
use board_laws::stop_reason::StopReason;
use board_offers::waiting::{least_pending, names_by_client};
use candidate_verdicts::pieces::is_gone;
use decision_order::settle::Settled;
use log_states::pending::Pending;
use rule_model::action::Action;
use rule_model::reply::{LimitKind, Reply};
use rule_model::rules::Rules;
use spec_core::memory::Memory;
use std::alloc::Global;

/// Whether the last action was the successful termination. It takes no memory.
pub fn has_ended(last: &Option<Action>) -> bool
    ensures { IsTrue result ↔ HasEnded last.now }
{
    match last {
        Some(Action::Exit(_)) => true,
        Some(Action::Inner) => false,
        Some(Action::At(_, _)) => false,
        None => false,
    }
}

// Whether the entry is an action.
fn is_act(settled: &Settled<Rules>) -> bool
    ensures { IsTrue result ↔ OfAct settled.now }
{
    match settled {
        Settled::Takes(_, _) => true,
        Settled::GoesOn(_) => true,
        Settled::Unknown => false,
        Settled::Deadlocks => false,
        Settled::IsBeyond(_, _) => false,
        Settled::IsNotNow(_) => false,
        Settled::Stalls => false,
        Settled::Nothing => false,
    }
}

// The name of the pending offer with a number.
fn name_at(pending: &[Pending], number: u32) -> (u32, u64)
    ensures { result ≡ name_of (offer_at (map pending_of pending.now) number) }
{
    match pending.get(number as usize) {
        None => (0, 0),
        Some(offer) => (offer.client, offer.number),
    }
}

// The tree with a number, without the others.
fn tree_at(those: Vec<Rules>, number: u32) -> Option<Rules>
    ensures { option_map derivation_of result ≡ slice_get (map derivation_of those.items) number }
{
    let mut those = those;
    let place = number as usize;
    if place >= those.len() {
        return None;
    }
    Some(those.remove(place))
}

impl Board {
    /// The name of the pending offer with a number, from 0 in the order in which they were made: its client, and its number there. It takes
    /// no memory.
    pub fn offer_name(&self, number: u32) -> (u32, u64)
        ensures { result ≡ name_of (offer_at (state self.now).pending number) }
    {
        name_at(self.record.state().pending(), number)
    }

    // Whether no offer is pending.
    fn none_pending(&self) -> bool
        ensures { IsTrue result ↔ ((state self.now).pending ≡ []) }
    {
        self.record.state().pending().is_empty()
    }

    // Whether each open client has an offer pending.
    fn all_wait(&self) -> bool
        ensures { IsTrue result ↔ AllWait (state self.now) }
    {
        self.record.state().all_wait()
    }

    // How many actions there were.
    fn actions(&self) -> u64
        ensures { result ≡ (state self.now).actions }
    {
        self.record.state().actions()
    }

    // Whether the last action was the successful termination.
    pub(crate) fn has_ended(&self) -> bool
        ensures { IsTrue result ↔ HasEnded (state self.now).last }
    {
        has_ended(self.record.state().last())
    }

    /// Whether the session goes on by its rules: it hasn't ended, or no offer is pending. It takes no memory.
    pub fn goes_by_rules(&self) -> bool
        ensures goes { IsTrue result → GoesByRules (state self.now) }
        ensures ended { result ≡ false → HasEnded (state self.now).last × ((state self.now).pending ≡ [] → ⊥) }
    {
        !self.has_ended() || self.none_pending()
    }

    // The name of the pending offer of the least client that has one.
    fn least(&self) -> Option<(u32, u64)>
        ensures { result ≡ option_map name_of (first (by_client (state self.now).pending)) }
    {
        least_pending(self.record.state())
    }

    // A pending offer is answered.
    fn reply(&mut self, alloc: Global, name: (u32, u64), reply: Reply) -> Result<(), Memory>
        requires pending { IsPending (state self.old) name }
        requires at { IsReplyAt (answer_of reply) (state self.old).actions }
        ensures log { OnOk result (events self.new ≡ events self.old ++ replied name.0 name.1 (answer_of reply) ∷ []) }
        ensures alone { OnOk result (AppendsAlone self.old self.new) }
        ensures possible { OnOk result
            (IsPossible (program self.old) (state self.old) (replied name.0 name.1 (answer_of reply)) (state self.new)) }
        ensures same { OnErr result (IsUnchanged self.old self.new) }
        ensures session { SameSession self.old self.new }
        ensures nodes { SameNodes self.old self.new }
        ensures stop { self.new.stop ≡ self.old.stop }
    {
        self.record.reply(alloc, name.0, name.1, reply)
    }

    // The pending offers are stalled.
    fn stall(&mut self, alloc: Global) -> Result<(), Memory>
        requires may { MayStall (state self.old) (map name_of (by_client (state self.old).pending)) }
        ensures log { OnOk result (events self.new ≡ events self.old ++ stalled (map name_of (by_client (state self.old).pending)) ∷ []) }
        ensures alone { OnOk result (AppendsAlone self.old self.new) }
        ensures possible { OnOk result (IsPossible (program self.old) (state self.old)
            (stalled (map name_of (by_client (state self.old).pending))) (state self.new)) }
        ensures same { OnErr result (IsUnchanged self.old self.new) }
        ensures session { SameSession self.old self.new }
        ensures nodes { SameNodes self.old self.new }
        ensures stop { self.new.stop ≡ self.old.stop }
    {
        let names = names_by_client(alloc, self.record.state())?;
        self.record.stall(alloc, names)
    }

    /// Makes ready all that `commit` needs with the same rules, where these take the offer named. All else stays as it is, also where there
    /// is no memory.
    pub fn reserve_step(
        &mut self,
        alloc: Global,
        rules: &Rules,
        by: Option<(u32, u64)>,
    ) -> Result<(), Memory>
        ensures reserved { OnOk result (IsActReserved self.new.session (derivation_of rules.now) by) }
        ensures log { SameLog self.old self.new }
        ensures nodes { SameNodes self.old self.new }
        ensures out { self.new.out ≡ self.old.out }
        ensures session { SameSession self.old self.new }
        ensures stop { self.new.stop ≡ self.old.stop }
    {
        self.record.reserve_act(alloc, rules, by)
    }

    /// The behaviour acts by these rules, and the offer named is taken, for which all was made ready, and since then nothing has changed.
    /// There were fewer actions than are allowed. Nodes that live on keep what they stand for; what was known of nodes that are gone is
    /// forgotten, and no job at them is out. It takes no memory.
    pub fn commit(&mut self, rules: Rules, by: Option<(u32, u64)>)
        requires reserved { IsActReserved self.old.session (derivation_of rules) by }
        requires may { MayFollow (program self.old) (state self.old) (tree self.old) by (derivation_of rules) }
        requires running { self.old.stop ≡ None }
        requires below { (state self.old).actions < self.old.settings.steps }
        ensures acted { HasActed self.old.session self.new.session (derivation_of rules) by }
        ensures step { IsStep (program self.old) (tree self.old) self.old.session.tree.next (derivation_of rules) (tree self.new)
            self.new.session.tree.next self.new.session.tree.gone self.new.session.tree.came }
        ensures nodes { KeepsNodes self.old self.new }
        ensures known { (g : ℕ) (d : Derivation) → pieces self.new g d ≡ without self.new.session.tree.gone (pieces self.old) g d }
        ensures out { map job_of self.new.out ≡ jobs_left self.new.session.tree.gone (map job_of self.old.out) }
        ensures session { SameSession self.old self.new }
        ensures stop { self.new.stop ≡ self.old.stop }
    {
        self.record.act(rules, by);
        self.index = None;
        let gone = self.record.tree().gone();
        self.pieces.drop_gone(gone);
        self.out.retain(|job| !is_gone(gone, generation_of(job)));
    }

    // The behaviour acts by these rules, and the offer named is taken.
    fn act(&mut self, alloc: Global, rules: Rules, by: Option<(u32, u64)>) -> Result<(), Memory>
        requires may { MayFollow (program self.old) (state self.old) (tree self.old) by (derivation_of rules) }
        requires running { self.old.stop ≡ None }
        requires rules { GoesByRules (state self.old) }
        requires below { (state self.old).actions < self.old.settings.steps }
        ensures acted { OnOk result (HasActed self.old.session self.new.session (derivation_of rules) by) }
        ensures stepped { OnOk result (HasStepped self.old self.new (derivation_of rules)) }
        ensures same { OnErr result (IsUnchanged self.old self.new) }
        ensures nodes { KeepsNodes self.old self.new }
        ensures session { SameSession self.old self.new }
        ensures stop { self.new.stop ≡ self.old.stop }
    {
        self.reserve_step(alloc, &rules, by)?;
        self.commit(rules, by);
        Ok(())
    }

    // The least client with a pending offer is answered.
    fn answer_least(&mut self, alloc: Global, reply: Reply) -> Result<(), Memory>
        requires some { (state self.old).pending ≡ [] → ⊥ }
        requires at { IsReplyAt (answer_of reply) (state self.old).actions }
        ensures told { OnOk result (AnswersLeast self.old self.new (answer_of reply)) }
        ensures same { OnErr result (IsUnchanged self.old self.new) }
        ensures session { SameSession self.old self.new }
        ensures nodes { SameNodes self.old self.new }
        ensures stop { self.new.stop ≡ self.old.stop }
    {
        match self.least() {
            None => unreachable!(),
            Some(name) => self.reply(alloc, name, reply),
        }
    }

    // The session has stopped: the least client with a pending offer is told why.
    fn tell_reason(&mut self, alloc: Global) -> Result<(), Memory>
        requires stopped { IsSome self.old.stop }
        requires some { (state self.old).pending ≡ [] → ⊥ }
        ensures settled { OnOk result (HasSettled self.old self.new) }
        ensures same { OnErr result (IsUnchanged self.old self.new) }
        ensures nodes { KeepsNodes self.old self.new }
        ensures session { SameSession self.old self.new }
    {
        let at = self.actions();
        match &self.stop {
            None => unreachable!(),
            Some(reason) => {
                let reply = reason.reply(alloc, at)?;
                self.answer_least(alloc, reply)
            }
        }
    }

    // The session has stopped: the least client with a pending offer, if there is one, is told why.
    fn tell_stop(&mut self, alloc: Global) -> Result<bool, Memory>
        requires stopped { IsSome self.old.stop }
        ensures settled { IfOk result (λ told. IsTrue told → HasSettled self.old self.new) }
        ensures none { IfOk result (λ told. told ≡ false → IsQuiet self.old self.new) }
        ensures same { OnErr result (IsUnchanged self.old self.new) }
        ensures nodes { KeepsNodes self.old self.new }
        ensures session { SameSession self.old self.new }
    {
        if self.none_pending() {
            return Ok(false);
        }
        self.tell_reason(alloc)?;
        Ok(true)
    }

    // An action would come next, but there were as many as are allowed: the least client with a pending offer is told so.
    fn tell_limit(&mut self, alloc: Global) -> Result<(), Memory>
        requires some { (state self.old).pending ≡ [] → ⊥ }
        ensures told { OnOk result (AnswersLeast self.old self.new (limit (state self.old).actions LimitKind.Steps)) }
        ensures same { OnErr result (IsUnchanged self.old self.new) }
        ensures session { SameSession self.old self.new }
        ensures nodes { SameNodes self.old self.new }
        ensures stop { self.new.stop ≡ self.old.stop }
    {
        let at = self.actions();
        let kind = LimitKind::Steps;
        self.answer_least(alloc, Reply::Limit { at, kind })
    }

    // An action would come next, but there were as many as are allowed: this stops the session.
    fn stop_at_limit(&mut self, alloc: Global) -> Result<bool, Memory>
        requires limit { IsKnownAtLimit self.old }
        requires stop { self.old.stop ≡ None }
        ensures settled { IfOk result (λ told. IsTrue told → HasSettled self.old self.new) }
        ensures none { IfOk result (λ told. told ≡ false → IsQuiet self.old self.new) }
        ensures same { OnErr result (IsUnchanged self.old self.new) }
        ensures nodes { KeepsNodes self.old self.new }
        ensures session { SameSession self.old self.new }
    {
        if self.none_pending() {
            self.stop = Some(StopReason::Limit(LimitKind::Steps));
            return Ok(false);
        }
        self.tell_limit(alloc)?;
        self.stop = Some(StopReason::Limit(LimitKind::Steps));
        Ok(true)
    }

    // After the termination the least client with a pending offer is told so.
    fn tell_end(&mut self, alloc: Global) -> Result<(), Memory>
        requires ended { HasEnded (state self.old).last }
        requires some { (state self.old).pending ≡ [] → ⊥ }
        requires stop { self.old.stop ≡ None }
        ensures settled { OnOk result (HasSettled self.old self.new) }
        ensures same { OnErr result (IsUnchanged self.old self.new) }
        ensures nodes { KeepsNodes self.old self.new }
        ensures session { SameSession self.old self.new }
    {
        let at = self.actions();
        self.answer_least(alloc, Reply::Ended { at })
    }

    // A windowed tree takes the offer with a number.
    fn take(&mut self, alloc: Global, number: u32, rules: Rules) -> Result<(), Memory>
        requires due { IsDue self.old (takes (offer_at (state self.old).pending number) (derivation_of rules)) }
        requires below { (state self.old).actions < self.old.settings.steps }
        requires rules { GoesByRules (state self.old) }
        requires stop { self.old.stop ≡ None }
        ensures settled { OnOk result (HasSettled self.old self.new) }
        ensures same { OnErr result (IsUnchanged self.old self.new) }
        ensures nodes { KeepsNodes self.old self.new }
        ensures session { SameSession self.old self.new }
    {
        let name = self.offer_name(number);
        self.act(alloc, rules, Some(name))
    }

    // One of these unseen trees acts, which the seed chooses.
    fn go_on(&mut self, alloc: Global, those: Vec<Rules>) -> Result<(), Memory>
        requires due { IsDue self.old (goes_on (map derivation_of those.items)) }
        requires below { (state self.old).actions < self.old.settings.steps }
        requires rules { GoesByRules (state self.old) }
        requires stop { self.old.stop ≡ None }
        ensures settled { OnOk result (HasSettled self.old self.new) }
        ensures same { OnErr result (IsUnchanged self.old self.new) }
        ensures nodes { KeepsNodes self.old self.new }
        ensures session { SameSession self.old self.new }
    {
        if those.len() > 4_294_967_295 {
            return Err(Memory);
        }
        if those.is_empty() {
            unreachable!();
        }
        let number = drawn(
            self.settings.draw,
            self.settings.seed,
            self.actions(),
            those.len() as u32,
        );
        match tree_at(those, number) {
            None => unreachable!(),
            Some(rules) => self.act(alloc, rules, None),
        }
    }

    // An offer is answered beyond the windows, with a tree.
    fn tell_beyond(&mut self, alloc: Global, number: u32, rules: Rules) -> Result<(), Memory>
        requires due { IsDue self.old (is_beyond (offer_at (state self.old).pending number) (derivation_of rules)) }
        requires rules { GoesByRules (state self.old) }
        requires stop { self.old.stop ≡ None }
        ensures settled { OnOk result (HasSettled self.old self.new) }
        ensures same { OnErr result (IsUnchanged self.old self.new) }
        ensures nodes { KeepsNodes self.old self.new }
        ensures session { SameSession self.old self.new }
    {
        let at = self.actions();
        let name = self.offer_name(number);
        self.reply(alloc, name, Reply::Beyond { at, rules })
    }

    // An offer that only asks is answered that it can't be taken now.
    fn tell_not_now(&mut self, alloc: Global, number: u32) -> Result<(), Memory>
        requires due { IsDue self.old (is_not_now (offer_at (state self.old).pending number)) }
        requires rules { GoesByRules (state self.old) }
        requires stop { self.old.stop ≡ None }
        ensures settled { OnOk result (HasSettled self.old self.new) }
        ensures same { OnErr result (IsUnchanged self.old self.new) }
        ensures nodes { KeepsNodes self.old self.new }
        ensures session { SameSession self.old self.new }
    {
        let at = self.actions();
        let name = self.offer_name(number);
        self.reply(alloc, name, Reply::NotNow { at })
    }

    // There is no step: the least client with a pending offer is told so.
    fn tell_deadlock(&mut self, alloc: Global) -> Result<(), Memory>
        requires due { IsDue self.old deadlocks }
        requires rules { GoesByRules (state self.old) }
        requires stop { self.old.stop ≡ None }
        ensures settled { OnOk result (HasSettled self.old self.new) }
        ensures same { OnErr result (IsUnchanged self.old self.new) }
        ensures nodes { KeepsNodes self.old self.new }
        ensures session { SameSession self.old self.new }
    {
        let at = self.actions();
        self.answer_least(alloc, Reply::Deadlock { at })
    }

    // All pending offers are stalled.
    fn tell_stall(&mut self, alloc: Global) -> Result<(), Memory>
        requires due { IsDue self.old stalls }
        requires rules { GoesByRules (state self.old) }
        requires stop { self.old.stop ≡ None }
        ensures settled { OnOk result (HasSettled self.old self.new) }
        ensures same { OnErr result (IsUnchanged self.old self.new) }
        ensures nodes { KeepsNodes self.old self.new }
        ensures session { SameSession self.old self.new }
    {
        self.log_is_a_derivation();
        self.stall(alloc)
    }

    // Appends the entry that the rules decide.
    fn append(&mut self, alloc: Global, settled: Settled<Rules>) -> Result<bool, Memory>
        requires decided { entry_of self.old settled ≡ decided_at self.old }
        requires due { (entry : Next PendingOffer Derivation) → decided_at self.old ≡ Some entry → IsDue self.old entry }
        requires busy { AwaitsClients (state self.old) → ⊥ }
        requires rules { GoesByRules (state self.old) }
        requires stop { self.old.stop ≡ None }
        ensures settled { IfOk result (λ told. IsTrue told → HasSettled self.old self.new) }
        ensures none { IfOk result (λ told. told ≡ false → IsQuiet self.old self.new) }
        ensures same { OnErr result (IsUnchanged self.old self.new) }
        ensures nodes { KeepsNodes self.old self.new }
        ensures session { SameSession self.old self.new }
    {
        if is_act(&settled) && self.actions() >= self.settings.steps as u64 {
            return self.stop_at_limit(alloc);
        }
        match settled {
            Settled::Unknown | Settled::Nothing => return Ok(false),
            Settled::Takes(number, rules) => self.take(alloc, number, rules)?,
            Settled::GoesOn(those) => self.go_on(alloc, those)?,
            Settled::IsBeyond(number, rules) => self.tell_beyond(alloc, number, rules)?,
            Settled::IsNotNow(number) => self.tell_not_now(alloc, number)?,
            Settled::Deadlocks => self.tell_deadlock(alloc)?,
            Settled::Stalls => self.tell_stall(alloc)?,
        }
        Ok(true)
    }

    /// Whether no offer is pending, and a client that is open may make one: then nothing comes next, whatever the behaviour may do. It
    /// takes no memory.
    pub(crate) fn awaits_clients(&self) -> bool
        ensures { IsTrue result ↔ AwaitsClients (state self.now) }
    {
        self.none_pending() && !self.all_wait()
    }

    /// What the rules decide is due: it comes next, it says what is so, and it may be done.
    pub fn decided_is_due(&self)
        ensures { (entry : Next PendingOffer Derivation) → decided_at self.now ≡ Some entry → IsDue self.now entry }
    {
        self.record.log_is_a_derivation();
        self.record.tree().generations_are_sound();
    }

    // Appends the next entry, as far as it is decided.
    fn settle_once(&mut self, alloc: Global) -> Result<bool, Memory>
        ensures settled { IfOk result (λ told. IsTrue told → HasSettled self.old self.new) }
        ensures none { IfOk result (λ told. told ≡ false → IsQuiet self.old self.new) }
        ensures same { OnErr result (IsUnchanged self.old self.new) }
        ensures nodes { KeepsNodes self.old self.new }
        ensures session { SameSession self.old self.new }
    {
        if self.stop.is_some() {
            return self.tell_stop(alloc);
        }
        if !self.goes_by_rules() {
            self.tell_end(alloc)?;
            return Ok(true);
        }
        if self.awaits_clients() {
            return Ok(false);
        }
        self.list_composites(alloc)?;
        self.decided_is_due();
        let settled = self.next(alloc)?;
        self.append(alloc, settled)
    }

    /// Appends the entry that comes next by the rules, if there is one and what is known decides it; its number in the log, from 0. Where
    /// the session has stopped, the least client with a pending offer is told why. Nodes that live on keep what they stand for.
    pub fn settle(&mut self, alloc: Global) -> Result<Option<u64>, Memory>
        ensures settled { IfOk result (λ o. IfSome o (λ n. HasSettled self.old self.new × (n ≡ length (events self.old)))) }
        ensures none { IfOk result (λ o. IfNone o (IsQuiet self.old self.new)) }
        ensures same { OnErr result (IsUnchanged self.old self.new) }
        ensures nodes { KeepsNodes self.old self.new }
        ensures session { SameSession self.old self.new }
    {
        let number = self.record.log().len() as u64;
        if self.settle_once(alloc)? {
            Ok(Some(number))
        } else {
            Ok(None)
        }
    }
}
