// Which actions are looked for at the parts of a tree.

ghost use Rattle.std.specs.Prelude.{◌≡◌, ◌++◌, ◌∷◌, [], ◌&&◌, not, IfOk, List, map, filter, option_map, true};
ghost use Rattle.std.specs.Prelude.{Some, None, if◌then◌else◌};
ghost use Rattle.spec_core.specs.Code.{Relabelling, relabelling_of, synchronised_of};
ghost use Rattle.spec_core.specs.Numbers.{gate_number};
ghost use Rattle.rule_model.specs.Actions as actions;
ghost use Rattle.symbolic_plans.specs.OpenPlans.{kind_in};
ghost use Rattle.candidate_laws.specs.Sought as sought;
ghost use Rattle.candidate_laws.specs.Sought.{seeks_some};
ghost use Rattle.node_trees.specs.Shapes.{unary_of};
ghost use Rattle.candidate_composites.specs.Known.{sought_in, step_of};
ghost use Rattle.candidate_composites.specs.Staying.{may_become, stays};

use crate::step::Step;
use node_trees::branch::Single;
use spec_core::code::GateSet;
use spec_core::items::Gate;
use spec_core::memory::Memory;
use std::alloc::Global;
use symbolic_plans::composite::ActionKind;
use symbolic_plans::kind::{is_alone, is_end, is_hidden, is_joint, renamed, same_kind};

/// Actions of whatever kind, or of one of these kinds.
#[derive(Drop)]
pub enum Sought {
    Every,
    These(Vec<ActionKind>),
}

// Whether the kind is one of these.
fn is_one_kind(kind: ActionKind, kinds: &[ActionKind]) -> bool
    ensures { result ≡ sought.is_one_kind (kind_in kind) (map kind_in kinds.now) }
{
    match kinds {
        [] => false,
        [first, rest @ ..] => same_kind(kind, *first) || is_one_kind(kind, rest),
    }
}

// The kind that an action of the part of an operator has above it.
fn kind_over(operator: &Single, kind: ActionKind) -> Option<ActionKind>
    ensures { option_map kind_in result ≡ sought.kind_above (sought.under_one (unary_of operator.now)) (kind_in kind) }
{
    match operator {
        Single::Hide(gates) => if is_hidden(gates, kind) {
            Some(ActionKind::Inner)
        } else {
            Some(kind)
        },
        Single::Relabel(pairs) => Some(renamed(pairs, kind)),
        Single::Enable { .. } => if is_end(kind) {
            Some(ActionKind::Inner)
        } else {
            Some(kind)
        },
    }
}

// The kind, if the test says so.
fn kind_where(holds: bool, kind: ActionKind) -> Option<ActionKind>
    ensures { option_map kind_in result ≡ (if holds then Some (kind_in kind) else None) }
{
    if holds { Some(kind) } else { None }
}

// The kind that an action of a part has above a step, where it is one there.
fn kind_above(step: &Step<'_>, kind: ActionKind) -> Option<ActionKind>
    ensures { option_map kind_in result ≡ sought.kind_above (step_of step.now) (kind_in kind) }
{
    match step {
        Step::Under(operator) => kind_over(operator, kind),
        Step::Alone(gates) => kind_where(is_alone(gates, kind), kind),
        Step::Together(gates) => kind_where(is_joint(gates, kind), kind),
        Step::Beside(other) => kind_where(same_kind(*other, kind), kind),
    }
}

// Whether an action of a kind is one of these kinds above a step.
fn becomes_one(step: &Step<'_>, kinds: &[ActionKind], kind: ActionKind) -> bool
    ensures { result ≡ sought.becomes_one (step_of step.now) (map kind_in kinds.now) (kind_in kind) }
{
    match kind_above(step, kind) {
        None => false,
        Some(above) => is_one_kind(above, kinds),
    }
}

// Appends each gate as the kind of an action.
fn put_gates(gates: &[Gate], all: &mut Vec<ActionKind>) -> Result<(), Memory>
    ensures { IfOk result (λ _.
        map kind_in all.new.items ≡ map kind_in all.old.items ++ map actions.at_gate (map gate_number gates.now)) }
{
    for gate in gates {
        all.push(ActionKind::At(*gate))?;
    }
    Ok(())
}

// Each gate that a relabelling names, as the kind of an action.
fn at_named(alloc: Global, pairs: &[(Gate, Gate)]) -> Result<Vec<ActionKind>, Memory>
    ensures { IfOk result (λ all.
        map kind_in all.items ≡ map (λ (m : Relabelling). actions.at_gate m.from) (map relabelling_of pairs.now)) }
{
    let mut all = Vec::new(alloc);
    for pair in pairs {
        all.push(ActionKind::At(pair.0))?;
    }
    Ok(all)
}

// The kinds of which those are that may change at an operator.
fn changing_over(alloc: Global, operator: &Single) -> Result<Vec<ActionKind>, Memory>
    ensures { IfOk result (λ all. map kind_in all.items ≡ sought.changing (sought.under_one (unary_of operator.now))) }
{
    match operator {
        Single::Hide(gates) => {
            let mut all = Vec::new(alloc);
            put_gates(gates, &mut all)?;
            Ok(all)
        }
        Single::Relabel(pairs) => at_named(alloc, pairs),
        Single::Enable { .. } => {
            let mut all = Vec::new(alloc);
            all.push(ActionKind::Exit)?;
            Ok(all)
        }
    }
}

// The same at a step.
fn changing(alloc: Global, step: &Step<'_>) -> Result<Vec<ActionKind>, Memory>
    ensures { IfOk result (λ all. map kind_in all.items ≡ sought.changing (step_of step.now)) }
{
    match step {
        Step::Under(operator) => changing_over(alloc, operator),
        Step::Alone(_) => Ok(Vec::new(alloc)),
        Step::Together(_) => Ok(Vec::new(alloc)),
        Step::Beside(_) => Ok(Vec::new(alloc)),
    }
}

// The kinds that aren't among others.
fn without(
    alloc: Global,
    kinds: &[ActionKind],
    others: &[ActionKind],
) -> Result<Vec<ActionKind>, Memory>
    ensures { IfOk result (λ all.
        map kind_in all.items ≡ filter (λ k. not (sought.is_one_kind k (map kind_in others.now))) (map kind_in kinds.now)) }
{
    let mut all = Vec::new(alloc);
    for kind in kinds {
        if !is_one_kind(*kind, others) {
            all.push(*kind)?;
        }
    }
    Ok(all)
}

// Appends those of kinds that are one of others above a step.
fn put_becoming(
    step: &Step<'_>,
    others: &[ActionKind],
    kinds: &[ActionKind],
    all: &mut Vec<ActionKind>,
) -> Result<(), Memory>
    ensures { IfOk result (λ _.
        map kind_in all.new.items ≡
        map kind_in all.old.items ++
        filter (sought.becomes_one (step_of step.now) (map kind_in others.now)) (map kind_in kinds.now)) }
{
    for kind in kinds {
        if becomes_one(step, others, *kind) {
            all.push(*kind)?;
        }
    }
    Ok(())
}

// Whether an action that changes its kind at an operator may be of one of these kinds above it.
fn may_become_over(operator: &Single, kinds: &[ActionKind]) -> bool
    ensures { result ≡ may_become (sought.under_one (unary_of operator.now)) (map kind_in kinds.now) }
{
    match operator {
        Single::Hide(_) => is_one_kind(ActionKind::Inner, kinds),
        Single::Relabel(_) => true,
        Single::Enable { .. } => is_one_kind(ActionKind::Inner, kinds),
    }
}

// The same at a step.
fn may_become(step: &Step<'_>, kinds: &[ActionKind]) -> bool
    ensures { result ≡ may_become (step_of step.now) (map kind_in kinds.now) }
{
    match step {
        Step::Under(operator) => may_become_over(operator, kinds),
        Step::Alone(_) => false,
        Step::Together(_) => false,
        Step::Beside(_) => false,
    }
}

// The kinds that are sought below a step, where these are sought above it.
#[tactic(auto, using(crate::proofs::Staying::none_becomes))]
fn those_below(
    alloc: Global,
    step: &Step<'_>,
    kinds: &[ActionKind],
) -> Result<Vec<ActionKind>, Memory>
    ensures { IfOk result (λ all.
        sought.these_kinds (map kind_in all.items) ≡ sought.sought_below (step_of step.now) (sought.these_kinds (map kind_in kinds.now))) }
{
    let mut all = Vec::new(alloc);
    put_becoming(step, kinds, kinds, &mut all)?;
    if !may_become(step, kinds) {
        return Ok(all);
    }
    let changing = changing(alloc, step)?;
    let others = without(alloc, &changing, kinds)?;
    put_becoming(step, kinds, &others, &mut all)?;
    Ok(all)
}

// Actions of one kind.
fn only(alloc: Global, kind: ActionKind) -> Result<Sought, Memory>
    ensures { IfOk result (λ v. sought_in v ≡ sought.these_kinds (kind_in kind ∷ [])) }
{
    let mut kinds = Vec::new(alloc);
    kinds.push(kind)?;
    Ok(Sought::These(kinds))
}

// Of actions of whatever kind, what a side of a parallel composition does alone.
fn every_alone(alloc: Global, gates: &GateSet) -> Result<Sought, Memory>
    ensures { IfOk result (λ v. sought_in v ≡ sought.every_alone (synchronised_of gates.now)) }
{
    match gates {
        GateSet::Every => only(alloc, ActionKind::Inner),
        GateSet::These(_) => Ok(Sought::Every),
    }
}

// The same of what both sides do together.
fn every_joint(alloc: Global, gates: &GateSet) -> Result<Sought, Memory>
    ensures { IfOk result (λ v. sought_in v ≡ sought.every_joint (synchronised_of gates.now)) }
{
    match gates {
        GateSet::Every => Ok(Sought::Every),
        GateSet::These(gates) => {
            let mut kinds = Vec::new(alloc);
            kinds.push(ActionKind::Exit)?;
            put_gates(gates, &mut kinds)?;
            Ok(Sought::These(kinds))
        }
    }
}

// What is sought below a step, where whatever there is is sought above it.
fn every_below(alloc: Global, step: &Step<'_>) -> Result<Sought, Memory>
    ensures { IfOk result (λ v. sought_in v ≡ sought.every_below (step_of step.now)) }
{
    match step {
        Step::Under(_) => Ok(Sought::Every),
        Step::Alone(gates) => every_alone(alloc, gates),
        Step::Together(gates) => every_joint(alloc, gates),
        Step::Beside(kind) => only(alloc, *kind),
    }
}

/// What is sought below a step.
pub(crate) fn sought_below(alloc: Global, step: &Step<'_>, above: &Sought) -> Result<Sought, Memory>
    ensures { IfOk result (λ v. sought_in v ≡ sought.sought_below (step_of step.now) (sought_in above.now)) }
{
    match above {
        Sought::Every => every_below(alloc, step),
        Sought::These(kinds) => Ok(Sought::These(those_below(alloc, step, kinds)?)),
    }
}

// What is sought below steps: the lowest, and those above it, of which the first one is the lowest.
fn sought_at(
    alloc: Global,
    lowest: &Step<'_>,
    others: &[Step<'_>],
    whole: &Sought,
) -> Result<Sought, Memory>
    ensures { IfOk result (λ v.
        sought_in v ≡ sought.sought_at (step_of lowest.now ∷ map step_of others.now) (sought_in whole.now)) }
{
    match others {
        [] => sought_below(alloc, lowest, whole),
        [step, rest @ ..] => {
            let above = sought_at(alloc, step, rest, whole)?;
            sought_below(alloc, lowest, &above)
        }
    }
}

// Whether an action of a kind is one of the same kind above each of these steps.
fn stays(steps: &[Step<'_>], kind: ActionKind) -> bool
    ensures { result ≡ stays (map step_of steps.now) (kind_in kind) }
{
    for step in steps {
        if !becomes_one(step, &[kind], kind) {
            return false;
        }
    }
    true
}

// Whether an action of the first of these kinds stays of its kind.
#[tactic(auto, using(crate::proofs::Staying::stays_first))]
fn first_stays(steps: &[Step<'_>], kinds: &[ActionKind]) -> bool
    ensures { result ≡ true → seeks_some (sought.sought_at (map step_of steps.now) (sought.these_kinds (map kind_in kinds.now))) ≡ true }
{
    match kinds {
        [] => false,
        [first, _others @ ..] => stays(steps, *first),
    }
}

// Whether an action stays of a kind that is sought at the whole, be it the first such kind.
#[tactic(auto, using(crate::proofs::Staying::stays_sought))]
fn some_stays(steps: &[Step<'_>], whole: &Sought) -> bool
    ensures { result ≡ true → seeks_some (sought.sought_at (map step_of steps.now) (sought_in whole.now)) ≡ true }
{
    match whole {
        Sought::Every => stays(steps, ActionKind::Inner),
        Sought::These(kinds) => first_stays(steps, kinds),
    }
}

/// Whether actions of some kind are sought below steps, of which the first one is the lowest. It recurs as often as there are steps, unless
/// an action of the first kind that is sought at the whole stays of that kind.
pub fn seeks_some_at(alloc: Global, steps: &[Step<'_>], whole: &Sought) -> Result<bool, Memory>
    ensures seeks { IfOk result (λ b. b ≡ seeks_some (sought.sought_at (map step_of steps.now) (sought_in whole.now))) }
{
    if some_stays(steps, whole) {
        return Ok(true);
    }
    match steps {
        [] => Ok(whole.seeks_some()),
        [lowest, others @ ..] => {
            let below = sought_at(alloc, lowest, others, whole)?;
            Ok(below.seeks_some())
        }
    }
}

impl Sought {
    /// Whether actions of the kind are sought. It takes no memory.
    pub(crate) fn seeks(&self, kind: ActionKind) -> bool
        ensures { result ≡ sought.is_sought (sought_in self.now) (kind_in kind) }
    {
        match self {
            Sought::Every => true,
            Sought::These(kinds) => is_one_kind(kind, kinds),
        }
    }

    /// Whether actions of some kind are sought. It takes no memory.
    pub(crate) fn seeks_some(&self) -> bool
        ensures { result ≡ seeks_some (sought_in self.now) }
    {
        match self {
            Sought::Every => true,
            Sought::These(kinds) => !kinds.is_empty(),
        }
    }
}
