// The step of a behaviour by a tree of inference rules.

ghost use Rattle.std.specs.Prelude.{IfOk, IfErr};
ghost use Rattle.spec_core.specs.Budgets.{IsBeyond};
ghost use Rattle.spec_core.specs.Ready.{IsReady};
ghost use Rattle.spec_core.specs.Terms.{variable};
ghost use Rattle.rewriter.specs.Answers.{MeetsTooLarge};
ghost use Rattle.rule_model.specs.Behaviours.{behaviour_of};
ghost use Rattle.rule_model.specs.Derivations.{derivation_of, val, gate, guard, letting, both, calling};
ghost use Rattle.rule_model.specs.Derives.{Derives, DerivesWith};
ghost use Rattle.rule_substitution.specs.Scopes.{terms_of};
ghost use Rattle.match_code.specs.Prepared.{program_in};
ghost use Rattle.rule_walk.specs.Answers.{Answers};
ghost use Rattle.rule_walk.specs.Asking.{Asks};
ghost use Rattle.rule_walk.specs.Bounds.{BoundsEach};
ghost use Rattle.rule_walk.specs.Faults.{Explains, IsFault, OnUnfit, OnSpent, OnTooLarge, Within};
ghost use Rattle.rule_walk.specs.Frames.{IsOver};
ghost use Rattle.rule_walk.specs.Parts.{HasNone, IsUnfitAt};

use crate::fault::{FireFault, below, unfit};
use crate::fields::{bind, bind_arguments, choose};
use crate::frame::part_under;
use crate::judge::ask_premise;
use crate::rows;
use crate::rows::Step;
use match_code::Prepared;
use rule_code::{Definition, gate_at, process_at};
use rule_model::action::Action;
use rule_model::beh::Beh;
use rule_model::rules::{Rules, Slot};
use rule_substitution::relabelling::pairs;
use rule_substitution::scope::Scope;
use std::alloc::Global;

/// What a closed behaviour does by a tree, and what it becomes. Each value that the tree asks is found with at most `budget` uses of
/// equations. A rule is tried from its own construct on: then its expressions from the left, then its parts from the left, and then the
/// condition on their action; the first that fails is answered. It recurs as deep as the tree, and the terms, are.
pub fn fire(
    alloc: Global,
    prepared: &Prepared,
    from: &Beh,
    rules: &Rules,
    budget: u64,
) -> Result<(Action, Beh), FireFault>
    requires ready { IsReady (program_in prepared.now) }
    ensures derives { IfOk result (λ r.
        Derives (program_in prepared.now) (behaviour_of from.now) (derivation_of rules.now) r.0 (behaviour_of r.1)) }
    ensures unfit { IfErr result (λ f. OnUnfit f
        (IsUnfitAt (program_in prepared.now) variable (behaviour_of from.now) (derivation_of rules.now))) }
    ensures no_step { IfErr result (λ f. OnUnfit f
        (λ _. HasNone (program_in prepared.now) variable (behaviour_of from.now) (derivation_of rules.now))) }
    ensures spent { IfErr result (λ f. OnSpent f (λ x.
        Asks (program_in prepared.now) variable (behaviour_of from.now) (derivation_of rules.now) x ×
        IsBeyond (program_in prepared.now).theory x budget)) }
    ensures too_large { IfErr result (λ f. OnTooLarge f (λ x.
        Asks (program_in prepared.now) variable (behaviour_of from.now) (derivation_of rules.now) x ×
        MeetsTooLarge (program_in prepared.now).theory x)) }
    ensures within { BoundsEach (program_in prepared.now).theory budget
        (Asks (program_in prepared.now) variable (behaviour_of from.now) (derivation_of rules.now)) result }
{
    let Step { action, rest } = step(alloc, prepared, &Scope::Empty, from, rules, budget)?;
    Ok((action, rest))
}

// What a behaviour does by a tree with these terms in the places of its free variables.
#[cycle(step)]
fn step(
    alloc: Global,
    prepared: &Prepared,
    scope: &Scope,
    from: &Beh,
    rules: &Rules,
    budget: u64,
) -> Result<Step, FireFault>
    requires ready { IsReady (program_in prepared.now) }
    ensures { Answers (program_in prepared.now) budget (terms_of scope.now) (behaviour_of from.now) (derivation_of rules.now) result }
{
    match rules {
        Rules::Pre(slots) => rows::prefix(alloc, prepared, scope, from, slots.as_slice(), budget),
        Rules::Int => rows::inner(alloc, scope, from),
        Rules::Exit(slots) => rows::exits(alloc, prepared, scope, from, slots.as_slice(), budget),
        Rules::Val(slot, part) => by_value(alloc, prepared, scope, from, slot, part, budget),
        Rules::Gate(place, part) => by_gate(alloc, prepared, scope, from, *place, part, budget),
        Rules::Guard(part) => by_premise(alloc, prepared, scope, from, part, budget),
        Rules::Let(part) => by_bindings(alloc, prepared, scope, from, part, budget),
        Rules::Both(part, other) => by_both(alloc, prepared, scope, from, part, other, budget),
        Rules::Call(part) => by_call(alloc, prepared, scope, from, part, budget),
        Rules::Chl(part) => over_part(alloc, prepared, scope, from, rules, part, budget),
        Rules::Chr(part) => over_part(alloc, prepared, scope, from, rules, part, budget),
        Rules::Parl(part) => over_part(alloc, prepared, scope, from, rules, part, budget),
        Rules::Parr(part) => over_part(alloc, prepared, scope, from, rules, part, budget),
        Rules::Hide(part) => over_part(alloc, prepared, scope, from, rules, part, budget),
        Rules::Pass(part) => over_part(alloc, prepared, scope, from, rules, part, budget),
        Rules::Enstep(part) => over_part(alloc, prepared, scope, from, rules, part, budget),
        Rules::Enend(part) => over_part(alloc, prepared, scope, from, rules, part, budget),
        Rules::Disstep(part) => over_part(alloc, prepared, scope, from, rules, part, budget),
        Rules::Disend(part) => over_part(alloc, prepared, scope, from, rules, part, budget),
        Rules::Distake(part) => over_part(alloc, prepared, scope, from, rules, part, budget),
        Rules::Rel(part) => over_part(alloc, prepared, scope, from, rules, part, budget),
    }
}

// The same of a part of the tree, whose place leads the path of what doesn't fit.
#[cycle(step)]
fn step_in(
    alloc: Global,
    prepared: &Prepared,
    scope: &Scope,
    from: &Beh,
    part: &Rules,
    budget: u64,
    place: u32,
) -> Result<Step, FireFault>
    requires ready { IsReady (program_in prepared.now) }
    ensures derives { IfOk result (λ s.
        DerivesWith (program_in prepared.now) (terms_of scope.now) (behaviour_of from.now) (derivation_of part.now) s.action
        (behaviour_of s.rest)) }
    ensures fault { IfErr result
        (Explains (program_in prepared.now).theory budget
        (Within place (IsUnfitAt (program_in prepared.now) (terms_of scope.now) (behaviour_of from.now) (derivation_of part.now)))
        (Asks (program_in prepared.now) (terms_of scope.now) (behaviour_of from.now) (derivation_of part.now))) }
    ensures within { BoundsEach (program_in prepared.now).theory budget
        (Asks (program_in prepared.now) (terms_of scope.now) (behaviour_of from.now) (derivation_of part.now)) result }
{
    match step(alloc, prepared, scope, from, part, budget) {
        Ok(done) => Ok(done),
        Err(fault) => Err(below(fault, place)),
    }
}

// The step of a rule over one part.
#[cycle(step)]
fn over_part(
    alloc: Global,
    prepared: &Prepared,
    scope: &Scope,
    from: &Beh,
    rules: &Rules,
    part: &Rules,
    budget: u64,
) -> Result<Step, FireFault>
    requires ready { IsReady (program_in prepared.now) }
    requires over { IsOver (derivation_of rules.now) (derivation_of part.now) }
    ensures { Answers (program_in prepared.now) budget (terms_of scope.now) (behaviour_of from.now) (derivation_of rules.now) result }
{
    match part_under(from, rules) {
        None => Err(unfit(alloc)),
        Some(framed) => {
            let done = step_in(alloc, prepared, scope, framed.part, part, budget, 0)?;
            rows::leave(alloc, prepared.checked, scope, framed.frame, done)
        }
    }
}

// The step of both sides of a parallel composition.
#[cycle(step)]
fn by_both(
    alloc: Global,
    prepared: &Prepared,
    scope: &Scope,
    from: &Beh,
    part: &Rules,
    other: &Rules,
    budget: u64,
) -> Result<Step, FireFault>
    requires ready { IsReady (program_in prepared.now) }
    ensures derives { IfOk result (λ s.
        DerivesWith (program_in prepared.now) (terms_of scope.now) (behaviour_of from.now)
        (both (derivation_of part.now) (derivation_of other.now)) s.action (behaviour_of s.rest)) }
    ensures fault { IfErr result
        (IsFault (program_in prepared.now) budget (terms_of scope.now) (behaviour_of from.now)
        (both (derivation_of part.now) (derivation_of other.now))) }
    ensures within { BoundsEach (program_in prepared.now).theory budget
        (Asks (program_in prepared.now) (terms_of scope.now) (behaviour_of from.now)
        (both (derivation_of part.now) (derivation_of other.now))) result }
{
    match from.as_parallel() {
        None => Err(unfit(alloc)),
        Some((gates, left, right)) => {
            let first = step_in(alloc, prepared, scope, left, part, budget, 0)?;
            let second = step_in(alloc, prepared, scope, right, other, budget, 1)?;
            rows::together(alloc, gates, first, second)
        }
    }
}

// The step of a choice of a value.
#[cycle(step)]
fn by_value(
    alloc: Global,
    prepared: &Prepared,
    scope: &Scope,
    from: &Beh,
    slot: &Slot,
    part: &Rules,
    budget: u64,
) -> Result<Step, FireFault>
    requires ready { IsReady (program_in prepared.now) }
    ensures derives { IfOk result (λ s.
        DerivesWith (program_in prepared.now) (terms_of scope.now) (behaviour_of from.now) (val slot.now (derivation_of part.now)) s.action
        (behaviour_of s.rest)) }
    ensures fault { IfErr result
        (IsFault (program_in prepared.now) budget (terms_of scope.now) (behaviour_of from.now) (val slot.now (derivation_of part.now))) }
    ensures within { BoundsEach (program_in prepared.now).theory budget
        (Asks (program_in prepared.now) (terms_of scope.now) (behaviour_of from.now) (val slot.now (derivation_of part.now))) result }
{
    match from.as_value_choice() {
        None => Err(unfit(alloc)),
        Some((x, sort, body)) => {
            let found = choose(alloc, prepared, slot, sort, budget)?;
            let more = scope.with(alloc, x, sort, &found.term)?;
            step_in(alloc, prepared, &more, body, part, budget, 0)
        }
    }
}

// The step of a choice of a gate.
#[cycle(step)]
fn by_gate(
    alloc: Global,
    prepared: &Prepared,
    scope: &Scope,
    from: &Beh,
    place: u32,
    part: &Rules,
    budget: u64,
) -> Result<Step, FireFault>
    requires ready { IsReady (program_in prepared.now) }
    ensures derives { IfOk result (λ s.
        DerivesWith (program_in prepared.now) (terms_of scope.now) (behaviour_of from.now) (gate place (derivation_of part.now)) s.action
        (behaviour_of s.rest)) }
    ensures fault { IfErr result
        (IsFault (program_in prepared.now) budget (terms_of scope.now) (behaviour_of from.now) (gate place (derivation_of part.now))) }
    ensures within { BoundsEach (program_in prepared.now).theory budget
        (Asks (program_in prepared.now) (terms_of scope.now) (behaviour_of from.now) (gate place (derivation_of part.now))) result }
{
    match from.as_gate_choice() {
        None => Err(unfit(alloc)),
        Some((name, gates, body)) => match gate_at(gates, place) {
            None => Err(unfit(alloc)),
            Some(actual) => {
                let body = rows::renamed_copy(alloc, name, actual, body)?;
                step_in(alloc, prepared, scope, &body, part, budget, 0)
            }
        },
    }
}

// The step of a guarded behaviour.
#[cycle(step)]
fn by_premise(
    alloc: Global,
    prepared: &Prepared,
    scope: &Scope,
    from: &Beh,
    part: &Rules,
    budget: u64,
) -> Result<Step, FireFault>
    requires ready { IsReady (program_in prepared.now) }
    ensures derives { IfOk result (λ s.
        DerivesWith (program_in prepared.now) (terms_of scope.now) (behaviour_of from.now) (guard (derivation_of part.now)) s.action
        (behaviour_of s.rest)) }
    ensures fault { IfErr result
        (IsFault (program_in prepared.now) budget (terms_of scope.now) (behaviour_of from.now) (guard (derivation_of part.now))) }
    ensures within { BoundsEach (program_in prepared.now).theory budget
        (Asks (program_in prepared.now) (terms_of scope.now) (behaviour_of from.now) (guard (derivation_of part.now))) result }
{
    match from.as_guarded() {
        None => Err(unfit(alloc)),
        Some((left, right, body)) => {
            ask_premise(alloc, prepared, scope, left, right, budget)?;
            step_in(alloc, prepared, scope, body, part, budget, 0)
        }
    }
}

// The step of a `let`.
#[cycle(step)]
fn by_bindings(
    alloc: Global,
    prepared: &Prepared,
    scope: &Scope,
    from: &Beh,
    part: &Rules,
    budget: u64,
) -> Result<Step, FireFault>
    requires ready { IsReady (program_in prepared.now) }
    ensures derives { IfOk result (λ s.
        DerivesWith (program_in prepared.now) (terms_of scope.now) (behaviour_of from.now) (letting (derivation_of part.now)) s.action
        (behaviour_of s.rest)) }
    ensures fault { IfErr result
        (IsFault (program_in prepared.now) budget (terms_of scope.now) (behaviour_of from.now) (letting (derivation_of part.now))) }
    ensures within { BoundsEach (program_in prepared.now).theory budget
        (Asks (program_in prepared.now) (terms_of scope.now) (behaviour_of from.now) (letting (derivation_of part.now))) result }
{
    match from.as_bound() {
        None => Err(unfit(alloc)),
        Some((bindings, body)) => {
            let more = bind(alloc, prepared, scope, scope, bindings, budget)?;
            step_in(alloc, prepared, &more, body, part, budget, 0)
        }
    }
}

// The step of a call.
#[cycle(step)]
fn by_call(
    alloc: Global,
    prepared: &Prepared,
    scope: &Scope,
    from: &Beh,
    part: &Rules,
    budget: u64,
) -> Result<Step, FireFault>
    requires ready { IsReady (program_in prepared.now) }
    ensures derives { IfOk result (λ s.
        DerivesWith (program_in prepared.now) (terms_of scope.now) (behaviour_of from.now) (calling (derivation_of part.now)) s.action
        (behaviour_of s.rest)) }
    ensures fault { IfErr result
        (IsFault (program_in prepared.now) budget (terms_of scope.now) (behaviour_of from.now) (calling (derivation_of part.now))) }
    ensures within { BoundsEach (program_in prepared.now).theory budget
        (Asks (program_in prepared.now) (terms_of scope.now) (behaviour_of from.now) (calling (derivation_of part.now))) result }
{
    match from.as_call() {
        None => Err(unfit(alloc)),
        Some((process, actual, terms)) => match process_at(alloc, prepared.checked, process)? {
            None => Err(unfit(alloc)),
            Some(defined) => {
                let Definition { gates, vars, body } = defined;
                let more = bind_arguments(
                    alloc,
                    prepared,
                    scope,
                    &Scope::Empty,
                    &vars,
                    terms,
                    budget,
                )?;
                let body = Beh::relabel(alloc, pairs(alloc, &gates, actual)?, body)?;
                step_in(alloc, prepared, &more, &body, part, budget, 0)
            }
        },
    }
}
