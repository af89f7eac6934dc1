// What operators make of the composites of their parts, as far as these are known.

ghost use Rattle.std.specs.Prelude.{◌≡◌, ◌∷◌, [], ◌++◌, IfOk, filter, map, flat_map, option_map};
ghost use Rattle.spec_core.specs.Code.{synchronised_of};
ghost use Rattle.spec_core.specs.Theories.{theory_of};
ghost use Rattle.symbolic_plans.specs.OpenPlans.{open_plan_of, plans_joint};
ghost use Rattle.symbolic_composites.specs.Composites.{from_option};
ghost use Rattle.node_trees.specs.Shapes.{unary_of};
ghost use Rattle.candidate_laws.specs.Sought.{with_another, as_another, sought_below};
ghost use Rattle.candidate_composites.specs.Known.{made, awaited, step_of, found_of, own_or_made, over_one, stepped, under_run};
ghost use Rattle.candidate_composites.specs.Known.{sought_in};
ghost use Rattle.candidate_composites.specs.Contexts as contexts;
ghost use Rattle.candidate_composites.specs.Kept as kept;
ghost use Rattle.candidate_composites.specs.Kept.{kept_partners};

use crate::found::{Found, Given, copied_below};
use crate::sought::{Sought, seeks_some_at, sought_below};
use crate::step::Step;
use node_trees::branch::Single;
use node_trees::origin::Gen;
use spec_core::code::GateSet;
use spec_core::equation::DataSpec;
use spec_core::memory::Memory;
use std::alloc::Global;
use symbolic_plans::composite::OpenComposite;
use symbolic_plans::kind::{is_joint, same_kind};
use symbolic_plans::operators::{by_enabling, by_hiding, by_relabelling, joint};
use symbolic_plans::scheme::Row;

/// What an operator over one part makes of a composite.
pub fn by_single(
    alloc: Global,
    operator: &Single,
    composite: OpenComposite,
) -> Result<OpenComposite, Memory>
    ensures { IfOk result (λ c. open_plan_of c ≡ over_one (unary_of operator.now) (open_plan_of composite)) }
{
    match operator {
        Single::Hide(gates) => by_hiding(alloc, gates, composite),
        Single::Relabel(pairs) => by_relabelling(alloc, pairs, composite),
        Single::Enable { .. } => by_enabling(alloc, composite),
    }
}

// A gap a step further down.
fn further_down<'a>(
    generation: Gen,
    steps: Vec<Step<'a>>,
    step: Step<'a>,
) -> Result<Found<'a>, Memory>
    ensures { IfOk result (λ x. found_of x ≡ awaited generation.0 (map step_of steps.entry.items ++ step_of step.entry ∷ [])) }
{
    let mut steps = steps;
    steps.push(step)?;
    Ok(Found::Gap(generation, steps))
}

// Appends a composite, if there is one.
fn put_composite<'a>(
    composite: Option<OpenComposite>,
    all: &mut Vec<Found<'a>>,
) -> Result<(), Memory>
    ensures { IfOk result (λ _.
        map found_of all.new.items ≡
        map found_of all.old.items ++ map made (from_option (option_map open_plan_of composite) (λ p. p ∷ []))) }
{
    match composite {
        None => Ok(()),
        Some(composite) => {
            all.push(Found::Composite(Given::Made(composite)))?;
            Ok(())
        }
    }
}

// Appends a gap a step further down.
fn put_gap<'a>(
    alloc: Global,
    generation: Gen,
    steps: &[Step<'a>],
    step: Step<'a>,
    all: &mut Vec<Found<'a>>,
) -> Result<(), Memory>
    ensures { IfOk result (λ _.
        map found_of all.new.items ≡
        map found_of all.old.items ++ awaited generation.0 (map step_of steps.now ++ step_of step.entry ∷ []) ∷ []) }
{
    let those = Vec::from_slice(alloc, steps)?;
    all.push(further_down(generation, those, step)?)?;
    Ok(())
}

// What a composite of the left side makes together with one of the right side, which is under a rule. Nothing is copied where their actions
// are of two kinds.
fn joint_beneath(
    alloc: Global,
    algebra: &DataSpec,
    gates: &GateSet,
    left: &OpenComposite,
    row: &Row,
    more: u32,
    right: &OpenComposite,
) -> Result<Option<OpenComposite>, Memory>
    ensures { IfOk result (λ o.
        from_option (option_map open_plan_of o) (λ p. p ∷ []) ≡
        plans_joint (theory_of algebra.now) (synchronised_of gates.now) (open_plan_of left.now) (under_run row.now more (open_plan_of right.now))) }
{
    if same_kind(left.kind, right.kind) {
        let right = copied_below(alloc, row, more, right)?;
        joint(alloc, algebra, gates, left, &right)
    } else {
        Ok(None)
    }
}

// What a composite of the left side makes together with one of the right side.
fn joint_given(
    alloc: Global,
    algebra: &DataSpec,
    gates: &GateSet,
    left: &OpenComposite,
    right: &Given<'_>,
) -> Result<Option<OpenComposite>, Memory>
    ensures { IfOk result (λ o.
        from_option (option_map open_plan_of o) (λ p. p ∷ []) ≡
        plans_joint (theory_of algebra.now) (synchronised_of gates.now) (open_plan_of left.now) (own_or_made right.now)) }
{
    match right {
        Given::Own(right) => joint(alloc, algebra, gates, left, right),
        Given::Beneath(row, more, right) => {
            joint_beneath(alloc, algebra, gates, left, row, *more, right)
        }
        Given::Made(right) => joint(alloc, algebra, gates, left, right),
    }
}

// Appends what a composite of the left side makes together with a part of the right side, but for a gap of which nothing comes beside it
// that is sought.
fn put_partner<'a>(
    alloc: Global,
    algebra: &DataSpec,
    gates: &GateSet,
    sought: &Sought,
    left: &OpenComposite,
    part: &Found<'a>,
    all: &mut Vec<Found<'a>>,
) -> Result<(), Memory>
    ensures { IfOk result (λ _.
        map found_of all.new.items ≡
        map found_of all.old.items ++
        flat_map (stepped (as_another (open_plan_of left.now).kind)
        (λ p. map made (plans_joint (theory_of algebra.now) (synchronised_of gates.now) (open_plan_of left.now) p)))
        (filter (kept.keeps (sought_below (as_another (open_plan_of left.now).kind) (sought_in sought.now))) (found_of part.now ∷ []))) }
{
    match part {
        Found::Gap(generation, steps) => {
            let step = Step::Beside(left.kind);
            let below = sought_below(alloc, &step, sought)?;
            if seeks_some_at(alloc, steps, &below)? {
                put_gap(alloc, *generation, steps, step, all)
            } else {
                Ok(())
            }
        }
        Found::Composite(right) => {
            put_composite(joint_given(alloc, algebra, gates, left, right)?, all)
        }
    }
}

// Appends what a composite of the left side makes together with each part of the right side.
fn put_each_partner<'a>(
    alloc: Global,
    algebra: &DataSpec,
    gates: &GateSet,
    sought: &Sought,
    left: &OpenComposite,
    right: &[Found<'a>],
    all: &mut Vec<Found<'a>>,
) -> Result<(), Memory>
    ensures { IfOk result (λ _.
        map found_of all.new.items ≡
        map found_of all.old.items ++
        flat_map (stepped (as_another (open_plan_of left.now).kind)
        (λ p. map made (plans_joint (theory_of algebra.now) (synchronised_of gates.now) (open_plan_of left.now) p)))
        (filter (kept.keeps (sought_below (as_another (open_plan_of left.now).kind) (sought_in sought.now))) (map found_of right.now))) }
{
    for part in right {
        put_partner(alloc, algebra, gates, sought, left, part, all)?;
    }
    Ok(())
}

// The same, where the composite is one that both sides have together.
fn put_partners<'a>(
    alloc: Global,
    algebra: &DataSpec,
    gates: &GateSet,
    sought: &Sought,
    left: &OpenComposite,
    right: &[Found<'a>],
    all: &mut Vec<Found<'a>>,
) -> Result<(), Memory>
    ensures { IfOk result (λ _.
        map found_of all.new.items ≡
        map found_of all.old.items ++
        kept_partners (theory_of algebra.now) (synchronised_of gates.now) (sought_in sought.now) (map found_of right.now)
        (open_plan_of left.now)) }
{
    if is_joint(gates, left.kind) {
        put_each_partner(alloc, algebra, gates, sought, left, right, all)
    } else {
        Ok(())
    }
}

// The same, where the composite is under a rule.
fn put_partners_beneath<'a>(
    alloc: Global,
    algebra: &DataSpec,
    gates: &GateSet,
    sought: &Sought,
    row: &Row,
    more: u32,
    left: &OpenComposite,
    right: &[Found<'a>],
    all: &mut Vec<Found<'a>>,
) -> Result<(), Memory>
    ensures { IfOk result (λ _.
        map found_of all.new.items ≡
        map found_of all.old.items ++
        kept_partners (theory_of algebra.now) (synchronised_of gates.now) (sought_in sought.now) (map found_of right.now)
        (under_run row.now more (open_plan_of left.now))) }
{
    if is_joint(gates, left.kind) {
        let left = copied_below(alloc, row, more, left)?;
        put_each_partner(alloc, algebra, gates, sought, &left, right, all)
    } else {
        Ok(())
    }
}

// The same, as the composite is given.
fn put_partners_given<'a>(
    alloc: Global,
    algebra: &DataSpec,
    gates: &GateSet,
    sought: &Sought,
    left: &Given<'_>,
    right: &[Found<'a>],
    all: &mut Vec<Found<'a>>,
) -> Result<(), Memory>
    ensures { IfOk result (λ _.
        map found_of all.new.items ≡
        map found_of all.old.items ++
        kept_partners (theory_of algebra.now) (synchronised_of gates.now) (sought_in sought.now) (map found_of right.now)
        (own_or_made left.now)) }
{
    match left {
        Given::Own(left) => put_partners(alloc, algebra, gates, sought, left, right, all),
        Given::Beneath(row, more, left) => {
            put_partners_beneath(alloc, algebra, gates, sought, row, *more, left, right, all)
        }
        Given::Made(left) => put_partners(alloc, algebra, gates, sought, left, right, all),
    }
}

// Appends what a part of the left side makes together with the right side.
fn put_together<'a>(
    alloc: Global,
    algebra: &DataSpec,
    gates: &'a GateSet,
    sought: &Sought,
    part: &Found<'a>,
    right: &[Found<'a>],
    all: &mut Vec<Found<'a>>,
) -> Result<(), Memory>
    ensures { IfOk result (λ _.
        map found_of all.new.items ≡
        map found_of all.old.items ++
        stepped (with_another (synchronised_of gates.now))
        (kept_partners (theory_of algebra.now) (synchronised_of gates.now) (sought_in sought.now) (map found_of right.now))
        (found_of part.now)) }
{
    match part {
        Found::Gap(generation, steps) => {
            put_gap(alloc, *generation, steps, Step::Together(gates), all)
        }
        Found::Composite(left) => {
            put_partners_given(alloc, algebra, gates, sought, left, right, all)
        }
    }
}

/// Whether it is a composite, or a gap from below whose steps something comes that is sought.
pub fn keeps(alloc: Global, sought: &Sought, found: &Found<'_>) -> Result<bool, Memory>
    ensures { IfOk result (λ b. b ≡ kept.keeps (sought_in sought.now) (found_of found.now)) }
{
    match found {
        Found::Gap(_, steps) => seeks_some_at(alloc, steps, sought),
        Found::Composite(_) => Ok(true),
    }
}

/// What both sides of a parallel composition do together, of which this is sought, and this below the step of its left side: without the gaps
/// of which nothing comes that is sought.
pub fn all_together<'a>(
    alloc: Global,
    algebra: &DataSpec,
    gates: &'a GateSet,
    sought: &Sought,
    below: &Sought,
    left: &[Found<'a>],
    right: &[Found<'a>],
) -> Result<Vec<Found<'a>>, Memory>
    ensures { IfOk result (λ all.
        map found_of all.items ≡
        flat_map (stepped (with_another (synchronised_of gates.now))
        (kept_partners (theory_of algebra.now) (synchronised_of gates.now) (sought_in sought.now) (map found_of right.now)))
        (filter (kept.keeps (sought_in below.now)) (map found_of left.now))) }
{
    let mut all = Vec::new(alloc);
    for part in left {
        if keeps(alloc, below, part)? {
            put_together(alloc, algebra, gates, sought, part, right, &mut all)?;
        }
    }
    Ok(all)
}

// Whether it may be what both sides of a parallel composition do together.
fn may_be_joint(
    alloc: Global,
    gates: &GateSet,
    sought: &Sought,
    found: &Found<'_>,
) -> Result<bool, Memory>
    ensures { IfOk result (λ b.
        b ≡ contexts.some_joint (synchronised_of gates.now) (filter (kept.keeps (sought_in sought.now)) (found_of found.now ∷ []))) }
{
    match found {
        Found::Gap(_, steps) => seeks_some_at(alloc, steps, sought),
        Found::Composite(composite) => Ok(is_joint(gates, composite.kind())),
    }
}

/// Whether one of these may be what both sides of a parallel composition do together, but for the gaps of which nothing comes that is sought.
#[inline(never)]
pub fn some_joint(
    alloc: Global,
    gates: &GateSet,
    sought: &Sought,
    those: &[Found<'_>],
) -> Result<bool, Memory>
    ensures { IfOk result (λ some.
        some ≡ contexts.some_joint (synchronised_of gates.now) (filter (kept.keeps (sought_in sought.now)) (map found_of those.now))) }
{
    for found in those {
        if may_be_joint(alloc, gates, sought, found)? {
            return Ok(true);
        }
    }
    Ok(false)
}
