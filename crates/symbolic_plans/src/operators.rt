// What operators make of composites: of one, of two, and of lists of them.

ghost use Rattle.std.specs.Prelude.{◌≡◌, ◌∷◌, [], ◌++◌, ◌&&◌, IfOk, map, flat_map, option_map};
ghost use Rattle.spec_core.specs.Code.{relabelling_of, synchronised_of};
ghost use Rattle.spec_core.specs.Numbers.{gate_number};
ghost use Rattle.spec_core.specs.Theories.{theory_of};
ghost use Rattle.symbolic_composites.specs.Composites.{from_option};
ghost use Rattle.symbolic_plans.specs.Plans.{field_of};
ghost use Rattle.symbolic_plans.specs.OpenPlans.{open_plan_of, under_row, under_relabelling, plans_alone, paired_plan};
ghost use Rattle.symbolic_plans.specs.OpenPlans.{plans_joint, plan_by_hiding, plan_by_enabling, plan_by_disabling, plans_of_choice};
ghost use Rattle.symbolic_plans.specs.OpenPlans.{plans_of_parallel, plans_of_disable, plans_of_gates};

use crate::column::{Column, all_together};
use crate::composite::{ActionKind, OpenComposite};
use crate::kind::{is_alone, is_end, is_hidden, is_joint, renamed, same_kind};
use crate::scheme::{Row, Scheme};
use spec_core::code::GateSet;
use spec_core::equation::DataSpec;
use spec_core::items::Gate;
use spec_core::memory::Memory;
use std::alloc::Global;

/// A composite under a rule.
pub fn below(alloc: Global, row: Row, composite: OpenComposite) -> Result<OpenComposite, Memory>
    ensures below { IfOk result (λ c. open_plan_of c ≡ under_row row (open_plan_of composite)) }
{
    let OpenComposite {
        kind,
        columns,
        scheme,
    } = composite;
    let scheme = Scheme::under(alloc, row, scheme)?;
    Ok(OpenComposite {
        kind,
        columns,
        scheme,
    })
}

// Appends each composite under a rule.
fn put_under(
    alloc: Global,
    row: &Row,
    composites: Vec<OpenComposite>,
    all: &mut Vec<OpenComposite>,
) -> Result<(), Memory>
    ensures { IfOk result (λ _.
        map open_plan_of all.new.items ≡ map open_plan_of all.old.items ++ map (under_row row.now) (map open_plan_of composites.items)) }
{
    for composite in composites {
        all.push(below(alloc, row.copy(alloc)?, composite)?)?;
    }
    Ok(())
}

/// Each composite under a rule.
pub fn under(
    alloc: Global,
    row: &Row,
    composites: Vec<OpenComposite>,
) -> Result<Vec<OpenComposite>, Memory>
    ensures under { IfOk result (λ all.
        map open_plan_of all.items ≡ map (under_row row.now) (map open_plan_of composites.items)) }
{
    let mut all = Vec::new(alloc);
    put_under(alloc, row, composites, &mut all)?;
    Ok(all)
}

/// Composites, and behind them others, each of these under a rule.
pub fn append_under(
    alloc: Global,
    row: &Row,
    composites: Vec<OpenComposite>,
    others: Vec<OpenComposite>,
) -> Result<Vec<OpenComposite>, Memory>
    ensures appended { IfOk result (λ all.
        map open_plan_of all.items ≡
        map open_plan_of composites.items ++ map (under_row row.now) (map open_plan_of others.items)) }
{
    let mut all = composites;
    put_under(alloc, row, others, &mut all)?;
    Ok(all)
}

/// The composites of a choice, from those of its sides.
pub fn choice(
    alloc: Global,
    left: Vec<OpenComposite>,
    right: Vec<OpenComposite>,
) -> Result<Vec<OpenComposite>, Memory>
    ensures choice { IfOk result (λ all.
        map open_plan_of all.items ≡ plans_of_choice (map open_plan_of left.items) (map open_plan_of right.items)) }
{
    let mut all = under(alloc, &Row::Chl, left)?;
    put_under(alloc, &Row::Chr, right, &mut all)?;
    Ok(all)
}

// Appends the composites that one side of a parallel composition has alone.
fn put_alone(
    alloc: Global,
    gates: &GateSet,
    row: &Row,
    composites: &[OpenComposite],
    all: &mut Vec<OpenComposite>,
) -> Result<(), Memory>
    ensures { IfOk result (λ _.
        map open_plan_of all.new.items ≡
        map open_plan_of all.old.items ++
        flat_map (plans_alone (synchronised_of gates.now) row.now) (map open_plan_of composites.now)) }
{
    for composite in composites {
        put_option(alone(alloc, gates, row, composite)?, all)?;
    }
    Ok(())
}

// Appends what there is.
fn put_option(composite: Option<OpenComposite>, all: &mut Vec<OpenComposite>) -> Result<(), Memory>
    ensures { IfOk result (λ _.
        map open_plan_of all.new.items ≡ map open_plan_of all.old.items ++ from_option (option_map open_plan_of composite) (λ p. p ∷ [])) }
{
    match composite {
        None => Ok(()),
        Some(composite) => {
            all.push(composite)?;
            Ok(())
        }
    }
}

/// A composite of one side of a parallel composition under a rule; None where that side doesn't have it alone.
pub fn alone(
    alloc: Global,
    gates: &GateSet,
    row: &Row,
    composite: &OpenComposite,
) -> Result<Option<OpenComposite>, Memory>
    ensures alone { IfOk result (λ o.
        from_option (option_map open_plan_of o) (λ p. p ∷ []) ≡
        plans_alone (synchronised_of gates.now) row.now (open_plan_of composite.now)) }
{
    if is_alone(gates, composite.kind) {
        Ok(Some(below(alloc, row.copy(alloc)?, composite.copy(alloc)?)?))
    } else {
        Ok(None)
    }
}

// The composite of two sides together, with these fields.
fn paired(
    alloc: Global,
    left: &OpenComposite,
    right: &OpenComposite,
    columns: Vec<Column>,
) -> Result<OpenComposite, Memory>
    ensures { IfOk result (λ c.
        open_plan_of c ≡ paired_plan (open_plan_of left.now) (open_plan_of right.now) (map field_of columns.items)) }
{
    let first = left.scheme.copy(alloc)?;
    let second = right.scheme.copy(alloc)?;
    let scheme = Scheme::both(alloc, first, second)?;
    Ok(OpenComposite {
        kind: left.kind,
        columns,
        scheme,
    })
}

/// The composite of two sides of a parallel composition together; None where they don't do it together.
pub fn joint(
    alloc: Global,
    algebra: &DataSpec,
    gates: &GateSet,
    left: &OpenComposite,
    right: &OpenComposite,
) -> Result<Option<OpenComposite>, Memory>
    ensures joint { IfOk result (λ o.
        from_option (option_map open_plan_of o) (λ p. p ∷ []) ≡
        plans_joint (theory_of algebra.now) (synchronised_of gates.now) (open_plan_of left.now) (open_plan_of right.now)) }
{
    if same_kind(left.kind, right.kind) && is_joint(gates, left.kind) {
        match all_together(alloc, algebra, &left.columns, &right.columns)? {
            None => Ok(None),
            Some(columns) => Ok(Some(paired(alloc, left, right, columns)?)),
        }
    } else {
        Ok(None)
    }
}

// Appends the composites of the left side with each of the right side together.
fn put_joints(
    alloc: Global,
    algebra: &DataSpec,
    gates: &GateSet,
    left: &OpenComposite,
    right: &[OpenComposite],
    all: &mut Vec<OpenComposite>,
) -> Result<(), Memory>
    ensures { IfOk result (λ _.
        map open_plan_of all.new.items ≡
        map open_plan_of all.old.items ++
        flat_map (plans_joint (theory_of algebra.now) (synchronised_of gates.now) (open_plan_of left.now)) (map open_plan_of right.now)) }
{
    for other in right {
        put_option(joint(alloc, algebra, gates, left, other)?, all)?;
    }
    Ok(())
}

// Appends the composites of each of the left side with each of the right side together.
fn put_all_joints(
    alloc: Global,
    algebra: &DataSpec,
    gates: &GateSet,
    left: &[OpenComposite],
    right: &[OpenComposite],
    all: &mut Vec<OpenComposite>,
) -> Result<(), Memory>
    ensures { IfOk result (λ _.
        map open_plan_of all.new.items ≡
        map open_plan_of all.old.items ++
        flat_map (λ p. flat_map (plans_joint (theory_of algebra.now) (synchronised_of gates.now) p) (map open_plan_of right.now))
        (map open_plan_of left.now)) }
{
    for composite in left {
        put_joints(alloc, algebra, gates, composite, right, all)?;
    }
    Ok(())
}

/// The composites of a parallel composition, from those of its sides.
pub fn parallel(
    alloc: Global,
    algebra: &DataSpec,
    gates: &GateSet,
    left: &[OpenComposite],
    right: &[OpenComposite],
) -> Result<Vec<OpenComposite>, Memory>
    ensures parallel { IfOk result (λ all.
        map open_plan_of all.items ≡
        plans_of_parallel (theory_of algebra.now) (synchronised_of gates.now) (map open_plan_of left.now) (map open_plan_of right.now)) }
{
    let mut all = Vec::new(alloc);
    put_alone(alloc, gates, &Row::Parl, left, &mut all)?;
    put_alone(alloc, gates, &Row::Parr, right, &mut all)?;
    put_all_joints(alloc, algebra, gates, left, right, &mut all)?;
    Ok(all)
}

/// A composite under a hiding.
pub fn by_hiding(
    alloc: Global,
    gates: &[Gate],
    composite: OpenComposite,
) -> Result<OpenComposite, Memory>
    ensures made { IfOk result (λ c. open_plan_of c ≡ plan_by_hiding (map gate_number gates.now) (open_plan_of composite)) }
{
    if is_hidden(gates, composite.kind) {
        let OpenComposite {
            kind: _,
            columns,
            scheme,
        } = composite;
        let scheme = Scheme::hide(alloc, columns, scheme)?;
        Ok(OpenComposite {
            kind: ActionKind::Inner,
            columns: Vec::new(alloc),
            scheme,
        })
    } else {
        below(alloc, Row::Pass, composite)
    }
}

/// The composites of a hiding, from those of its body.
pub fn hide(
    alloc: Global,
    gates: &[Gate],
    composites: Vec<OpenComposite>,
) -> Result<Vec<OpenComposite>, Memory>
    ensures hide { IfOk result (λ all.
        map open_plan_of all.items ≡ map (plan_by_hiding (map gate_number gates.now)) (map open_plan_of composites.items)) }
{
    let mut all = Vec::new(alloc);
    for composite in composites {
        all.push(by_hiding(alloc, gates, composite)?)?;
    }
    Ok(all)
}

/// A composite of the left side of an enabling.
pub fn by_enabling(alloc: Global, composite: OpenComposite) -> Result<OpenComposite, Memory>
    ensures made { IfOk result (λ c. open_plan_of c ≡ plan_by_enabling (open_plan_of composite)) }
{
    if is_end(composite.kind) {
        let OpenComposite {
            kind: _,
            columns,
            scheme,
        } = composite;
        let scheme = Scheme::enend(alloc, columns, scheme)?;
        Ok(OpenComposite {
            kind: ActionKind::Inner,
            columns: Vec::new(alloc),
            scheme,
        })
    } else {
        below(alloc, Row::Enstep, composite)
    }
}

/// The composites of an enabling, from those of its left side.
pub fn enable(alloc: Global, composites: Vec<OpenComposite>) -> Result<Vec<OpenComposite>, Memory>
    ensures enable { IfOk result (λ all. map open_plan_of all.items ≡ map plan_by_enabling (map open_plan_of composites.items)) }
{
    let mut all = Vec::new(alloc);
    for composite in composites {
        all.push(by_enabling(alloc, composite)?)?;
    }
    Ok(all)
}

/// A composite of the left side of a disabling.
pub fn by_disabling(alloc: Global, composite: OpenComposite) -> Result<OpenComposite, Memory>
    ensures made { IfOk result (λ c. open_plan_of c ≡ plan_by_disabling (open_plan_of composite)) }
{
    if is_end(composite.kind) {
        below(alloc, Row::Disend, composite)
    } else {
        below(alloc, Row::Disstep, composite)
    }
}

/// The composites of a disabling, from those of its sides.
pub fn disable(
    alloc: Global,
    left: Vec<OpenComposite>,
    right: Vec<OpenComposite>,
) -> Result<Vec<OpenComposite>, Memory>
    ensures disable { IfOk result (λ all.
        map open_plan_of all.items ≡ plans_of_disable (map open_plan_of left.items) (map open_plan_of right.items)) }
{
    let mut all = Vec::new(alloc);
    for composite in left {
        all.push(by_disabling(alloc, composite)?)?;
    }
    put_under(alloc, &Row::Distake, right, &mut all)?;
    Ok(all)
}

/// A composite under a relabelling.
pub fn by_relabelling(
    alloc: Global,
    pairs: &[(Gate, Gate)],
    composite: OpenComposite,
) -> Result<OpenComposite, Memory>
    ensures made { IfOk result (λ c. open_plan_of c ≡ under_relabelling (map relabelling_of pairs.now) (open_plan_of composite)) }
{
    let OpenComposite {
        kind,
        columns,
        scheme,
    } = composite;
    let scheme = Scheme::under(alloc, Row::Rel, scheme)?;
    Ok(OpenComposite {
        kind: renamed(pairs, kind),
        columns,
        scheme,
    })
}

/// The composites of a relabelled behaviour, from those of its body.
pub fn relabel(
    alloc: Global,
    pairs: &[(Gate, Gate)],
    composites: Vec<OpenComposite>,
) -> Result<Vec<OpenComposite>, Memory>
    ensures relabel { IfOk result (λ all.
        map open_plan_of all.items ≡ map (under_relabelling (map relabelling_of pairs.now)) (map open_plan_of composites.items)) }
{
    let mut all = Vec::new(alloc);
    for composite in composites {
        all.push(by_relabelling(alloc, pairs, composite)?)?;
    }
    Ok(all)
}

/// Equal composites, in the same order.
pub fn copies(alloc: Global, composites: &[OpenComposite]) -> Result<Vec<OpenComposite>, Memory>
    ensures equal { IfOk result (λ all. map open_plan_of all.items ≡ map open_plan_of composites.now) }
{
    let mut all = Vec::new(alloc);
    for composite in composites {
        all.push(composite.copy(alloc)?)?;
    }
    Ok(all)
}

// Appends the composites of a body with one gate of a choice in the place of its gate.
fn put_gate(
    alloc: Global,
    from: Gate,
    to: Gate,
    place: u32,
    composites: &[OpenComposite],
    all: &mut Vec<OpenComposite>,
) -> Result<(), Memory>
    ensures { IfOk result (λ _.
        map open_plan_of all.new.items ≡
        map open_plan_of all.old.items ++
        map (under_row (Row.Gate place))
        (map (under_relabelling (record { from = from.0; to = to.0 } ∷ [])) (map open_plan_of composites.now))) }
{
    let copied = copies(alloc, composites)?;
    let relabelled = relabel(alloc, &[(from, to)], copied)?;
    put_under(alloc, &Row::Gate(place), relabelled, all)
}

// Appends the composites of a body with each gate of a choice in the place of its gate, counted from a place on.
fn put_gates(
    alloc: Global,
    from: Gate,
    place: u32,
    gates: &[Gate],
    composites: &[OpenComposite],
    all: &mut Vec<OpenComposite>,
) -> Result<(), Memory>
    ensures { IfOk result (λ _.
        map open_plan_of all.new.items ≡
        map open_plan_of all.old.items ++
        plans_of_gates from.0 place (map gate_number gates.now) (map open_plan_of composites.now)) }
{
    match gates {
        [] => Ok(()),
        [first, rest @ ..] => {
            put_gate(alloc, from, *first, place, composites, all)?;
            if place == u32::MAX {
                return Err(Memory);
            }
            put_gates(alloc, from, place + 1, rest, composites, all)
        }
    }
}

/// The composites of a choice of a gate, from those of its body. Want of memory is also answered past 2^32 gates, which no machine has.
pub fn gate_choice(
    alloc: Global,
    gate: Gate,
    gates: &[Gate],
    composites: &[OpenComposite],
) -> Result<Vec<OpenComposite>, Memory>
    ensures gates { IfOk result (λ all.
        map open_plan_of all.items ≡ plans_of_gates gate.0 1 (map gate_number gates.now) (map open_plan_of composites.now)) }
{
    let mut all = Vec::new(alloc);
    put_gates(alloc, gate, 1, gates, composites, &mut all)?;
    Ok(all)
}
