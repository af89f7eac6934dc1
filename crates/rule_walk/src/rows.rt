// Each rule's own part: what it makes of the steps of its parts.

ghost use Rattle.std.specs.Prelude.{◌≡◌, ◌∷◌, [], true, false, IfOk, IfErr, map};
ghost use Rattle.spec_core.specs.Code.{program_of, relabelling_of, synchronised_of, variable_of};
ghost use Rattle.spec_core.specs.Numbers.{gate_number};
ghost use Rattle.spec_core.specs.Ready.{IsReady};
ghost use Rattle.rule_laws.specs.Spelled.{HasSpelled};
ghost use Rattle.rule_model.specs.declared.action.Action.TheVariants.{Inner};
ghost use Rattle.rule_model.specs.Actions.{kind_of, synchronises, IsAlone, IsJoint, IsUnhidden, IsNoEnd, IsEnd};
ghost use Rattle.rule_model.specs.Behaviours.{behaviour_of, parallel, relabel};
ghost use Rattle.rule_model.specs.Constructs.{OnInner};
ghost use Rattle.rule_model.specs.Derivations.{pre, exiting};
ghost use Rattle.rule_model.specs.Derives.{DerivesWith};
ghost use Rattle.rule_model.specs.Substitution.{put};
ghost use Rattle.rule_substitution.specs.Scopes.{terms_of};
ghost use Rattle.match_code.specs.Prepared.{program_in};
ghost use Rattle.rule_walk.specs.Answers.{Leaves};
ghost use Rattle.rule_walk.specs.Asking.{Asks};
ghost use Rattle.rule_walk.specs.Bounds.{BoundsEach};
ghost use Rattle.rule_walk.specs.Ends.{IsAtHidden};
ghost use Rattle.rule_walk.specs.Faults.{IsFault, IsMisfit};
ghost use Rattle.rule_walk.specs.Frames as frames;
ghost use Rattle.rule_walk.specs.Frames.{before_right, after_left, hidden_in, passing, handing, ending, renaming};
ghost use Rattle.rule_walk.specs.Models.{surrounding_of};

use crate::fault::{FireFault, unfit};
use crate::fields::{Filled, fill, fill_exit, hand_on};
use crate::frame::Frame;
use crate::judge::ask_guard;
use match_code::Prepared;
use rule_model::action::{Action, Values};
use rule_model::beh::Beh;
use rule_model::rules::Slot;
use rule_substitution::relabelling::{is_among, renamed, tidied};
use rule_substitution::scope::Scope;
use spec_core::code::{Checked, GateSet};
use spec_core::items::{Gate, Sort};
use spec_core::memory::Memory;
use std::alloc::Global;

/// What is done, and what is left.
#[derive(Drop)]
pub struct Step {
    pub action: Action,
    pub rest: Beh,
}

/// The step of an action.
pub fn prefix(
    alloc: Global,
    prepared: &Prepared,
    scope: &Scope,
    from: &Beh,
    slots: &[Slot],
    budget: u64,
) -> Result<Step, FireFault>
    requires ready { IsReady (program_in prepared.now) }
    ensures derives { IfOk result (λ s.
        DerivesWith (program_in prepared.now) (terms_of scope.now) (behaviour_of from.now) (pre slots.now) s.action (behaviour_of s.rest)) }
    ensures fault { IfErr result
        (IsFault (program_in prepared.now) budget (terms_of scope.now) (behaviour_of from.now) (pre slots.now)) }
    ensures within { BoundsEach (program_in prepared.now).theory budget
        (Asks (program_in prepared.now) (terms_of scope.now) (behaviour_of from.now) (pre slots.now)) result }
{
    match from.as_action() {
        None => Err(unfit(alloc)),
        Some((gate, fields, guard, rest)) => {
            let filled = fill(alloc, prepared, scope, scope, fields, slots, budget)?;
            ask_guard(alloc, prepared, &filled.scope, guard, budget)?;
            let rest = filled.scope.put(alloc, rest)?;
            let Filled { values, scope: _ } = filled;
            Ok(Step {
                action: Action::At(gate, Values::new(values)),
                rest,
            })
        }
    }
}

/// The step of an internal action.
pub fn inner(alloc: Global, scope: &Scope, from: &Beh) -> Result<Step, FireFault>
    ensures does { IfOk result (λ s.
        OnInner (behaviour_of from.now)
        (λ rest. (s.action ≡ Inner) × (behaviour_of s.rest ≡ put (terms_of scope.now) rest))) }
    ensures misfit { IfErr result (IsMisfit (OnInner (behaviour_of from.now) (λ _. Unit {0}) → ⊥)) }
{
    match from.as_inner() {
        None => Err(unfit(alloc)),
        Some(rest) => {
            let rest = scope.put(alloc, rest)?;
            Ok(Step {
                action: Action::Inner,
                rest,
            })
        }
    }
}

/// The step of an exit.
pub fn exits(
    alloc: Global,
    prepared: &Prepared,
    scope: &Scope,
    from: &Beh,
    slots: &[Slot],
    budget: u64,
) -> Result<Step, FireFault>
    requires ready { IsReady (program_in prepared.now) }
    ensures derives { IfOk result (λ s.
        DerivesWith (program_in prepared.now) (terms_of scope.now) (behaviour_of from.now) (exiting slots.now) s.action
        (behaviour_of s.rest)) }
    ensures fault { IfErr result
        (IsFault (program_in prepared.now) budget (terms_of scope.now) (behaviour_of from.now) (exiting slots.now)) }
    ensures within { BoundsEach (program_in prepared.now).theory budget
        (Asks (program_in prepared.now) (terms_of scope.now) (behaviour_of from.now) (exiting slots.now)) result }
{
    match from.as_exit() {
        None => Err(unfit(alloc)),
        Some(fields) => {
            let values = fill_exit(alloc, prepared, scope, fields, slots, budget)?;
            Ok(Step {
                action: Action::Exit(Values::new(values)),
                rest: Beh::Stop,
            })
        }
    }
}

/// A copy of the behaviour, relabelled from one gate to another.
pub fn renamed_copy(alloc: Global, from: Gate, to: Gate, body: &Beh) -> Result<Beh, Memory>
    ensures made { IfOk result (λ b. behaviour_of b ≡ relabel (record { from = from.0; to = to.0 } ∷ []) (behaviour_of body.now)) }
{
    let body = body.copy(alloc)?;
    let pairs = vec![in alloc; (from, to)]?;
    Beh::relabel(alloc, pairs, body)
}

// Whether a parallel composition synchronises at the gate.
fn is_synchronised(gates: &GateSet, gate: Gate) -> bool
    ensures decides { result ≡ synchronises (synchronised_of gates.now) gate.0 }
{
    match gates {
        GateSet::Every => true,
        GateSet::These(these) => is_among(gate, these),
    }
}

// Whether one side of a parallel composition does the action alone.
fn is_alone(gates: &GateSet, action: &Action) -> bool
    ensures alone { result ≡ true → IsAlone (synchronised_of gates.now) (kind_of action.now) }
    ensures other { result ≡ false → IsAlone (synchronised_of gates.now) (kind_of action.now) → ⊥ }
{
    match action {
        Action::Inner => true,
        Action::Exit(_) => false,
        Action::At(gate, _) => !is_synchronised(gates, *gate),
    }
}

// Whether both sides of a parallel composition do the action together.
fn is_joint(gates: &GateSet, action: &Action) -> bool
    ensures joint { result ≡ true → IsJoint (synchronised_of gates.now) (kind_of action.now) }
    ensures other { result ≡ false → IsJoint (synchronised_of gates.now) (kind_of action.now) → ⊥ }
{
    match action {
        Action::Inner => false,
        Action::Exit(_) => true,
        Action::At(gate, _) => is_synchronised(gates, *gate),
    }
}

// The left side of a parallel composition acts alone, and the right side stays.
fn left_alone(
    alloc: Global,
    checked: &Checked,
    scope: &Scope,
    gates: &GateSet,
    done: Step,
    right: &Beh,
) -> Result<Step, FireFault>
    ensures { Leaves (program_of checked.now).theory (terms_of scope.now)
        (before_right (synchronised_of gates.now) (behaviour_of right.now)) done result }
{
    let Step { action, rest } = done;
    if is_alone(gates, &action) {
        let right = scope.put(alloc, right)?;
        let rest = Beh::parallel(alloc, gates.copy(alloc)?, rest, right)?;
        Ok(Step { action, rest })
    } else {
        Err(unfit(alloc))
    }
}

// The right side of a parallel composition acts alone, and the left side stays.
fn right_alone(
    alloc: Global,
    checked: &Checked,
    scope: &Scope,
    gates: &GateSet,
    left: &Beh,
    done: Step,
) -> Result<Step, FireFault>
    ensures { Leaves (program_of checked.now).theory (terms_of scope.now)
        (after_left (synchronised_of gates.now) (behaviour_of left.now)) done result }
{
    let Step { action, rest } = done;
    if is_alone(gates, &action) {
        let left = scope.put(alloc, left)?;
        let rest = Beh::parallel(alloc, gates.copy(alloc)?, left, rest)?;
        Ok(Step { action, rest })
    } else {
        Err(unfit(alloc))
    }
}

/// Both sides of a parallel composition do one action together.
pub fn together(
    alloc: Global,
    gates: &GateSet,
    first: Step,
    second: Step,
) -> Result<Step, FireFault>
    ensures action { IfOk result (λ s. s.action ≡ first.action) }
    ensures same { IfOk result (λ s. second.action ≡ first.action) }
    ensures joint { IfOk result (λ s. IsJoint (synchronised_of gates.now) (kind_of first.action)) }
    ensures rest { IfOk result (λ s.
        behaviour_of s.rest ≡ parallel (synchronised_of gates.now) (behaviour_of first.rest) (behaviour_of second.rest)) }
    ensures misfit { IfErr result
        (IsMisfit ((second.action ≡ first.action) × IsJoint (synchronised_of gates.now) (kind_of first.action) → ⊥)) }
{
    let Step { action, rest: left } = first;
    let Step {
        action: other,
        rest: right,
    } = second;
    if is_joint(gates, &action) && action.same(&other) {
        let rest = Beh::parallel(alloc, gates.copy(alloc)?, left, right)?;
        Ok(Step { action, rest })
    } else {
        Err(unfit(alloc))
    }
}

// Whether the action is at one of these gates.
fn is_hidden(gates: &[Gate], action: &Action) -> bool
    ensures hidden { result ≡ true → IsAtHidden (map gate_number gates.now) action.now }
    ensures other { result ≡ false → IsUnhidden (map gate_number gates.now) (kind_of action.now) }
{
    match action {
        Action::At(gate, _) => is_among(*gate, gates),
        Action::Inner | Action::Exit(_) => false,
    }
}

// What the body of a hiding does at a hidden gate is internal.
fn hidden(
    alloc: Global,
    checked: &Checked,
    scope: &Scope,
    gates: &[Gate],
    done: Step,
) -> Result<Step, FireFault>
    ensures { Leaves (program_of checked.now).theory (terms_of scope.now) (hidden_in (map gate_number gates.now)) done result }
{
    let Step { action, rest } = done;
    if is_hidden(gates, &action) {
        let rest = Beh::hide(alloc, Vec::from_slice(alloc, gates)?, rest)?;
        Ok(Step {
            action: Action::Inner,
            rest,
        })
    } else {
        Err(unfit(alloc))
    }
}

// The body of a hiding does anything but at a hidden gate.
fn passed(
    alloc: Global,
    checked: &Checked,
    scope: &Scope,
    gates: &[Gate],
    done: Step,
) -> Result<Step, FireFault>
    ensures { Leaves (program_of checked.now).theory (terms_of scope.now) (passing (map gate_number gates.now)) done result }
{
    let Step { action, rest } = done;
    if is_hidden(gates, &action) {
        Err(unfit(alloc))
    } else {
        let rest = Beh::hide(alloc, Vec::from_slice(alloc, gates)?, rest)?;
        Ok(Step { action, rest })
    }
}

// Whether the action is the termination.
fn is_end(action: &Action) -> bool
    ensures end { result ≡ true → IsEnd (kind_of action.now) }
    ensures other { result ≡ false → IsNoEnd (kind_of action.now) }
{
    match action {
        Action::Inner => false,
        Action::Exit(_) => true,
        Action::At(_, _) => false,
    }
}

// The left side of an enabling acts and doesn't terminate.
fn still_enabling(
    alloc: Global,
    checked: &Checked,
    scope: &Scope,
    done: Step,
    vars: &[(u32, Sort)],
    right: &Beh,
) -> Result<Step, FireFault>
    ensures { Leaves (program_of checked.now).theory (terms_of scope.now)
        (frames.still_enabling (map variable_of vars.now) (behaviour_of right.now)) done result }
{
    let Step { action, rest } = done;
    if is_end(&action) {
        Err(unfit(alloc))
    } else {
        let inner = scope.without_variables(alloc, vars)?;
        let right = inner.put(alloc, right)?;
        let rest = Beh::enable(alloc, rest, Vec::from_slice(alloc, vars)?, right)?;
        Ok(Step { action, rest })
    }
}

// The left side of an enabling terminates, and the right side begins with the values.
fn enabled(
    alloc: Global,
    checked: &Checked,
    scope: &Scope,
    done: Step,
    vars: &[(u32, Sort)],
    right: &Beh,
) -> Result<Step, FireFault>
    requires ready { IsReady (program_of checked.now) }
    requires given { HasSpelled (program_of checked.now).theory done.action }
    ensures { Leaves (program_of checked.now).theory (terms_of scope.now)
        (handing (map variable_of vars.now) (behaviour_of right.now)) done result }
{
    match &done.action {
        Action::Inner => Err(unfit(alloc)),
        Action::At(_, _) => Err(unfit(alloc)),
        Action::Exit(values) => {
            let more = hand_on(alloc, checked, scope, vars, values.as_slice())?;
            let rest = more.put(alloc, right)?;
            Ok(Step {
                action: Action::Inner,
                rest,
            })
        }
    }
}

// The left side of a disabling acts and doesn't terminate.
fn still_disabled(
    alloc: Global,
    checked: &Checked,
    scope: &Scope,
    done: Step,
    right: &Beh,
) -> Result<Step, FireFault>
    ensures { Leaves (program_of checked.now).theory (terms_of scope.now) (frames.still_disabled (behaviour_of right.now)) done result }
{
    let Step { action, rest } = done;
    let over = is_end(&action);
    if over {
        Err(unfit(alloc))
    } else {
        let right = scope.put(alloc, right)?;
        let rest = Beh::disable(alloc, rest, right)?;
        Ok(Step { action, rest })
    }
}

// The left side of a disabling terminates, and so does the whole.
fn ended(alloc: Global, checked: &Checked, scope: &Scope, done: Step) -> Result<Step, FireFault>
    ensures { Leaves (program_of checked.now).theory (terms_of scope.now) ending done result }
{
    if is_end(&done.action) {
        Ok(done)
    } else {
        Err(unfit(alloc))
    }
}

// A relabelled behaviour acts at the gate that stands in the place of its body's, and stays relabelled.
fn relabelled(
    alloc: Global,
    checked: &Checked,
    scope: &Scope,
    pairs: &[(Gate, Gate)],
    done: Step,
) -> Result<Step, FireFault>
    ensures { Leaves (program_of checked.now).theory (terms_of scope.now) (renaming (map relabelling_of pairs.now)) done result }
{
    let Step { action, rest } = done;
    let rest = tidied(alloc, pairs, rest)?;
    Ok(Step {
        action: renamed(pairs, action),
        rest,
    })
}

/// The step of a whole, made of what its part does, where that is what the rule asks.
pub fn leave(
    alloc: Global,
    checked: &Checked,
    scope: &Scope,
    frame: Frame<'_>,
    done: Step,
) -> Result<Step, FireFault>
    requires ready { IsReady (program_of checked.now) }
    requires given { HasSpelled (program_of checked.now).theory done.action }
    ensures { Leaves (program_of checked.now).theory (terms_of scope.now) (surrounding_of frame.entry) done result }
{
    match frame {
        Frame::Same => Ok(done),
        Frame::BesideRight(gates, right) => left_alone(alloc, checked, scope, gates, done, right),
        Frame::BesideLeft(gates, left) => right_alone(alloc, checked, scope, gates, left, done),
        Frame::Hidden(gates) => hidden(alloc, checked, scope, gates, done),
        Frame::Passing(gates) => passed(alloc, checked, scope, gates, done),
        Frame::Enabling(vars, right) => still_enabling(alloc, checked, scope, done, vars, right),
        Frame::Handing(vars, right) => enabled(alloc, checked, scope, done, vars, right),
        Frame::Disabling(right) => still_disabled(alloc, checked, scope, done, right),
        Frame::Ending => ended(alloc, checked, scope, done),
        Frame::Renamed(pairs) => relabelled(alloc, checked, scope, pairs, done),
    }
}
