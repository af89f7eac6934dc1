// Expansions of constructs, from those of their parts.

ghost use Rattle.std.specs.Prelude.{◌≡◌, ◌∷◌, [], ◌+◌, ◌*◌, ◌≤◌, map, length, if◌then◌else◌};
ghost use Rattle.spec_core.specs.Code.{relabelling_of, synchronised_of};
ghost use Rattle.spec_core.specs.Numbers.{gate_number};
ghost use Rattle.spec_core.specs.Theories.{theory_of};
ghost use Rattle.symbolic_plans.specs.OpenPlans.{open_plan_of, under_row, under_relabelling, plan_by_hiding, plan_by_enabling};
ghost use Rattle.symbolic_plans.specs.OpenPlans.{plans_of_choice, plans_of_parallel, plans_of_disable, plans_of_gates};
ghost use Rattle.expand.specs.Joins.{Sized, Turns, Joins, Adds};

use crate::outcome::Expanded;
use node_values::stop::Stop;
use rule_model::rules::Slot;
use spec_core::code::GateSet;
use spec_core::equation::DataSpec;
use spec_core::items::Gate;
use std::alloc::Global;
use symbolic_plans::composite::OpenComposite;
use symbolic_plans::operators;
use symbolic_plans::scheme::Row;

// These composites with this spread, where it isn't too wide.
fn sized(composites: Vec<OpenComposite>, spread: u64) -> Result<Expanded, Stop>
    ensures { Sized (map open_plan_of composites.items) spread result }
{
    if spread <= 65_536 {
        Ok(Expanded { composites, spread })
    } else {
        Err(Stop::Wide(65_537))
    }
}

/// A construct without composites, with this spread, 0 or 1.
pub fn nothing(alloc: Global, one: bool) -> Result<Expanded, Stop>
    ensures nothing { Sized [] (if one then 1 else 0) result }
{
    let spread = if one { 1 } else { 0 };
    sized(Vec::new(alloc), spread)
}

/// One composite.
pub fn single(alloc: Global, composite: OpenComposite) -> Result<Expanded, Stop>
    ensures single { Sized (open_plan_of composite ∷ []) 1 result }
{
    let mut all = Vec::new(alloc);
    match all.push(composite) {
        Ok(()) => sized(all, 1),
        Err(_) => Err(Stop::Memory),
    }
}

/// The expansion of a construct with one part, under a rule.
pub fn under_rule(alloc: Global, row: &Row, part: Result<Expanded, Stop>) -> Result<Expanded, Stop>
    ensures under { Turns (map (under_row row.now)) (λ k. 1 + k) part result }
{
    match part {
        Err(stop) => Err(stop),
        Ok(x) => {
            let Expanded { composites, spread } = x;
            match operators::under(alloc, row, composites) {
                Err(_) => Err(Stop::Memory),
                Ok(all) => sized(all, 1 + spread),
            }
        }
    }
}

/// The expansion of a hiding.
pub fn hide(alloc: Global, gates: &[Gate], part: Result<Expanded, Stop>) -> Result<Expanded, Stop>
    ensures hide { Turns (map (plan_by_hiding (map gate_number gates.now))) (λ k. 1 + k) part result }
{
    match part {
        Err(stop) => Err(stop),
        Ok(x) => {
            let Expanded { composites, spread } = x;
            match operators::hide(alloc, gates, composites) {
                Err(_) => Err(Stop::Memory),
                Ok(all) => sized(all, 1 + spread),
            }
        }
    }
}

/// The expansion of an enabling.
pub fn enable(alloc: Global, part: Result<Expanded, Stop>) -> Result<Expanded, Stop>
    ensures enable { Turns (map plan_by_enabling) (λ k. 1 + k) part result }
{
    match part {
        Err(stop) => Err(stop),
        Ok(x) => {
            let Expanded { composites, spread } = x;
            match operators::enable(alloc, composites) {
                Err(_) => Err(Stop::Memory),
                Ok(all) => sized(all, 1 + spread),
            }
        }
    }
}

/// The expansion of a relabelled behaviour.
pub fn relabel(
    alloc: Global,
    pairs: &[(Gate, Gate)],
    part: Result<Expanded, Stop>,
) -> Result<Expanded, Stop>
    ensures relabel { Turns (map (under_relabelling (map relabelling_of pairs.now))) (λ k. 1 + k) part result }
{
    match part {
        Err(stop) => Err(stop),
        Ok(x) => {
            let Expanded { composites, spread } = x;
            match operators::relabel(alloc, pairs, composites) {
                Err(_) => Err(Stop::Memory),
                Ok(all) => sized(all, 1 + spread),
            }
        }
    }
}

/// The expansion of a choice of a gate.
pub fn gate_choice(
    alloc: Global,
    gate: Gate,
    gates: &[Gate],
    part: Result<Expanded, Stop>,
) -> Result<Expanded, Stop>
    ensures gates { Turns (plans_of_gates gate.0 1 (map gate_number gates.now)) (λ k. 1 + length gates.now * (1 + k)) part result }
{
    match part {
        Err(stop) => Err(stop),
        Ok(x) => {
            let Expanded { composites, spread } = x;
            if gates.len() > 65_536 {
                return Err(Stop::Wide(65_537));
            }
            let count = gates.len() as u64;
            match operators::gate_choice(alloc, gate, gates, &composites) {
                Err(_) => Err(Stop::Memory),
                Ok(all) => sized(all, 1 + count * (1 + spread)),
            }
        }
    }
}

/// The expansion of a choice.
pub fn choice(
    alloc: Global,
    left: Result<Expanded, Stop>,
    right: Result<Expanded, Stop>,
) -> Result<Expanded, Stop>
    ensures choice { Joins plans_of_choice left right result }
{
    match left {
        Err(stop) => Err(stop),
        Ok(x) => match right {
            Err(stop) => Err(stop),
            Ok(y) => {
                let spread = 1 + (x.spread + y.spread);
                match operators::choice(alloc, x.composites, y.composites) {
                    Err(_) => Err(Stop::Memory),
                    Ok(all) => sized(all, spread),
                }
            }
        },
    }
}

/// The expansion of a parallel composition.
pub fn parallel(
    alloc: Global,
    algebra: &DataSpec,
    gates: &GateSet,
    left: Result<Expanded, Stop>,
    right: Result<Expanded, Stop>,
) -> Result<Expanded, Stop>
    ensures parallel { Joins (plans_of_parallel (theory_of algebra.now) (synchronised_of gates.now)) left right result }
{
    match left {
        Err(stop) => Err(stop),
        Ok(x) => match right {
            Err(stop) => Err(stop),
            Ok(y) => {
                let spread = 1 + (x.spread + y.spread);
                match operators::parallel(alloc, algebra, gates, &x.composites, &y.composites) {
                    Err(_) => Err(Stop::Memory),
                    Ok(all) => sized(all, spread),
                }
            }
        },
    }
}

/// The expansion of a disabling.
pub fn disable(
    alloc: Global,
    left: Result<Expanded, Stop>,
    right: Result<Expanded, Stop>,
) -> Result<Expanded, Stop>
    ensures disable { Joins plans_of_disable left right result }
{
    match left {
        Err(stop) => Err(stop),
        Ok(x) => match right {
            Err(stop) => Err(stop),
            Ok(y) => {
                let spread = 1 + (x.spread + y.spread);
                match operators::disable(alloc, x.composites, y.composites) {
                    Err(_) => Err(Stop::Memory),
                    Ok(all) => sized(all, spread),
                }
            }
        },
    }
}

/// What is there already, with the expansion of a part under the choice of a value.
pub fn beside(
    alloc: Global,
    slot: Slot,
    all: Expanded,
    part: Result<Expanded, Stop>,
) -> Result<Expanded, Stop>
    ensures beside { Adds slot (map open_plan_of all.composites.items) all.spread part result }
{
    match part {
        Err(stop) => Err(stop),
        Ok(x) => {
            let spread = all.spread + x.spread;
            match operators::append_under(alloc, &Row::Val(slot), all.composites, x.composites) {
                Err(_) => Err(Stop::Memory),
                Ok(composites) => sized(composites, spread),
            }
        }
    }
}
