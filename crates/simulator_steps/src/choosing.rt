// A step is chosen.

ghost use Rattle.std.specs.Prelude.{ℕ, ◌-◌, ◌≡◌, ◌∷◌, ◌++◌, ◌<◌, ◌≤◌, [], IfOk, None, OnOk, Option, map, option_map, length};
ghost use Rattle.std.specs.List.{slice_get};
ghost use Rattle.spec_core.specs.Lists.{Each};
ghost use Rattle.rule_model.specs.declared.offer.Field.TheVariants.{Give};
ghost use Rattle.rule_model.specs.Actions.{kind_of};
ghost use Rattle.rule_model.specs.Derivations.{derivation_of};
ghost use Rattle.rule_model.specs.Events.{acted};
ghost use Rattle.rule_model.specs.Legal.{IsAgreed};
ghost use Rattle.rule_model.specs.States.{without_taken};
ghost use Rattle.board_lists.specs.Listings.{IsCandidate, tree_in};
ghost use Rattle.board_core.specs.Views.{events, program, state, tree, SameLog, SameSetting, SameNodes};
ghost use Rattle.rule_gates.specs.Acting.{IsAt, IsOfHeading};
ghost use Rattle.rule_laws.specs.Spelled.{HasSpelled};
ghost use Rattle.simulator_steps.specs.Asking.{IsAtRest};
ghost use Rattle.simulator_steps.specs.Choosing.{ComesOfChoice, ComesOfNumber, offered_before, taken_by};

use crate::asking::pend;
use crate::listing::{Looked, steps};
use board_core::board::Board;
use board_lists::list::Candidate;
use rule_gates::laws::actions_are_at_gates_of_the_heading;
use rule_model::action::{Action, Values};
use rule_model::offer::{Field, Fields, Offer};
use rule_model::reply::{LimitKind, Reply};
use spec_core::items::Gate;
use spec_core::memory::Memory;
use spec_core::value::Value;
use std::alloc::Global;

/// What a step that is chosen comes to.
#[derive(Drop)]
pub enum Chosen {
    /// This action was done.
    Done(Action),
    /// No action was done, and this is why.
    Told(Reply),
    /// There are fewer steps.
    Missing,
}

// Fields that give just these values.
fn given(alloc: Global, values: &[Value]) -> Result<Vec<Field>, Memory>
    ensures { IfOk result (λ fields. fields.items ≡ map Give values.now) }
{
    let mut all = Vec::new(alloc);
    for value in values {
        all.push(Field::Give(value.copy(alloc)?))?;
    }
    Ok(all)
}

// An offer of just these values.
fn offer_of(alloc: Global, gate: Gate, values: &Values) -> Result<Offer, Memory>
    ensures { IfOk result (λ o. o ≡ record { gate = gate; fields = map Give values.now }) }
{
    let fields = given(alloc, values.as_slice())?;
    Ok(Offer {
        gate,
        fields: Fields::new(fields),
    })
}

// An action that is seen is offered first, with just its values: the offer's name.
fn offered(alloc: Global, board: &mut Board, action: &Action) -> Result<Option<(u32, u64)>, Memory>
    requires rests { IsAtRest (state board.old) }
    requires gate { IsAt (IsOfHeading (program board.old)) (kind_of action.now) }
    requires values { HasSpelled (program board.old).theory action.now }
    ensures offered { IfOk result (λ by. (number : ℕ) × (by ≡ taken_by action.now number) ×
        (events board.new ≡ events board.old ++ offered_before action.now number)) }
    ensures agreed { IfOk result (IsAgreed (program board.new) (state board.new) action.now) }
    ensures taken { IfOk result (λ by. without_taken by (state board.new).pending ≡ []) }
    ensures behaviour { OnOk result ((state board.new).behaviour ≡ (state board.old).behaviour) }
    ensures actions { OnOk result ((state board.new).actions ≡ (state board.old).actions) }
    ensures open { OnOk result ((state board.new).open_clients ≡ (state board.old).open_clients) }
    ensures nodes { SameNodes board.old board.new }
    ensures setting { SameSetting board.old board.new }
    ensures stop { board.new.stop ≡ board.old.stop }
{
    match action {
        Action::Inner => Ok(None),
        Action::Exit(_) => Ok(None),
        Action::At(gate, values) => {
            let offer = offer_of(alloc, *gate, values)?;
            let number = pend(alloc, board, &offer, false)?;
            Ok(Some((1, number)))
        }
    }
}

// The step is done.
fn act(alloc: Global, board: &mut Board, step: &Candidate) -> Result<Action, Memory>
    requires rests { IsAtRest (state board.old) }
    requires step { IsCandidate (program board.old) (state board.old) (tree board.old) step.now }
    requires running { board.old.stop ≡ None }
    requires below { (state board.old).actions < board.old.settings.steps }
    ensures action { IfOk result (λ a. a ≡ step.now.action) }
    ensures log { IfOk result (λ a. (number : ℕ) × (events board.new ≡ events board.old ++ offered_before a number ++
        acted a (derivation_of step.now.rules) (taken_by a number) ∷ [])) }
    ensures rests { OnOk result (IsAtRest (state board.new)) }
    ensures still { OnOk result (board.new.stop ≡ None) }
    ensures setting { SameSetting board.old board.new }
{
    board.log_is_a_derivation();
    actions_are_at_gates_of_the_heading();
    let action = step.action.copy(alloc)?;
    let rules = step.rules.copy(alloc)?;
    let by = offered(alloc, board, &action)?;
    board.reserve_step(alloc, &rules, by)?;
    board.commit(rules, by);
    Ok(action)
}

// The step with this number, counted from 1, among these.
fn numbered(steps: &[Candidate], number: u32) -> Option<&Candidate>
    requires counted { 1 ≤ number }
    ensures { option_map (λ c. c.now) result ≡ slice_get steps.now (number - 1) }
{
    steps.get(number as usize - 1)
}

// The step with a number is done, unless there were as many actions as are allowed.
fn do_numbered(
    alloc: Global,
    board: &mut Board,
    steps: &[Candidate],
    number: u32,
) -> Result<Chosen, Memory>
    requires rests { IsAtRest (state board.old) }
    requires counted { 1 ≤ number }
    requires running { board.old.stop ≡ None }
    requires steps { Each (IsCandidate (program board.old) (state board.old) (tree board.old)) steps.now }
    ensures choice { IfOk result (ComesOfNumber board.old board.new (map tree_in steps.now) number) }
    ensures rests { OnOk result (IsAtRest (state board.new)) }
    ensures setting { SameSetting board.old board.new }
{
    let Some(step) = numbered(steps, number) else {
        return Ok(Chosen::Missing);
    };
    let at = board.state().actions();
    if at >= board.settings().steps as u64 {
        let kind = LimitKind::Steps;
        return Ok(Chosen::Told(Reply::Limit { at, kind }));
    }
    Ok(Chosen::Done(act(alloc, board, step)?))
}

/// The step with this number, counted from 1, is done, if there is one and the session hasn't stopped, and there were fewer actions than are
/// allowed. What jobs this needs are done at once.
pub fn choose(alloc: Global, board: &mut Board, number: u32) -> Result<Chosen, Memory>
    requires rests { IsAtRest (state board.old) }
    requires counted { 1 ≤ number }
    ensures choice { IfOk result (ComesOfChoice board.old board.new number) }
    ensures rests { OnOk result (IsAtRest (state board.new)) }
    ensures setting { SameSetting board.old board.new }
{
    match steps(alloc, board, number)? {
        Looked::Stopped(reply) => Ok(Chosen::Told(reply)),
        Looked::Steps(listing) => do_numbered(alloc, board, &listing.candidates, number),
    }
}
