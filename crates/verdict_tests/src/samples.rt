// Trees of two nodes, with trees of rules over them, and what the nodes show.

use crate::data::{NUMBERS, number, slots};
use candidate_verdicts::pieces::{Piece, Pieces};
use node_trees::branch::{Branch, Double, Single};
use node_trees::node::Node;
use node_trees::origin::{Gen, Origin};
use rule_model::rules::Rules;
use spec_core::code::GateSet;
use spec_core::items::Gate;
use spec_core::memory::Memory;
use std::alloc::Global;
use symbolic_actions::field::ShownField;
use symbolic_actions::shown::Shown;
use symbolic_plans::composite::ActionKind;

/// Operators over the first node, or over both, and the rules by which they act.
#[derive(Clone, Copy)]
pub enum Sample {
    /// Both sides act together.
    Together,
    /// The same, at a hidden gate.
    Hidden,
    /// The left side acts alone, where no gate is synchronised.
    Alone,
    /// The left side would act alone, where each gate is synchronised.
    AloneAtAll,
    /// The right side of a choice acts.
    Chosen,
    /// The left side of an enabling acts.
    Enabling,
    /// The left side of an enabling terminates.
    Enabled,
    /// The left side of a disabling terminates.
    Ended,
    /// The right side of a disabling acts.
    Disabling,
    /// The body of a relabelling from the first gate to the third acts.
    Relabelled,
    /// A rule of a parallel composition over a choice.
    Unfit,
    /// What is left of an exit.
    Over,
}

/// What is known of a node.
#[derive(Clone, Copy)]
pub enum Part {
    Unknown,
    Nothing,
    Told(u32),
    Chosen(u32),
    Given,
    Free,
    /// It terminates with a number that is only chosen.
    Ends(u32),
}

fn leaf(alloc: Global, generation: u128) -> Result<Box<Branch>, Memory> {
    let origin = Origin {
        node: 0,
        values: Vec::new(alloc),
        relabel: Vec::new(alloc),
    };
    let node = Node {
        generation: Gen(generation),
        origin,
        work: None,
    };
    let branch = Box::new(alloc, Branch::Leaf(node))?;
    Ok(branch)
}

fn between(alloc: Global, operator: Double) -> Result<Box<Branch>, Memory> {
    let left = leaf(alloc, 1)?;
    let right = leaf(alloc, 2)?;
    Branch::between(alloc, operator, left, right)
}

fn over(alloc: Global, operator: Single) -> Result<Box<Branch>, Memory> {
    let part = leaf(alloc, 1)?;
    Branch::over(alloc, operator, part)
}

fn enabling(alloc: Global) -> Result<Box<Branch>, Memory> {
    let operator = Single::Enable {
        vars: vec![in alloc; (7, NUMBERS)]?,
        right: 0,
        values: Vec::new(alloc),
    };
    over(alloc, operator)
}

/// The tree of nodes.
pub fn tree(alloc: Global, sample: Sample) -> Result<Box<Branch>, Memory> {
    match sample {
        Sample::Together => between(alloc, Double::Par(GateSet::Every)),
        Sample::Hidden => {
            let part = between(alloc, Double::Par(GateSet::Every))?;
            Branch::over(alloc, Single::Hide(vec![in alloc; Gate(0)]?), part)
        }
        Sample::Alone => between(alloc, Double::Par(GateSet::These(Vec::new(alloc)))),
        Sample::AloneAtAll => between(alloc, Double::Par(GateSet::Every)),
        Sample::Chosen => between(alloc, Double::Choice),
        Sample::Enabling => enabling(alloc),
        Sample::Enabled => enabling(alloc),
        Sample::Ended => between(alloc, Double::Disable),
        Sample::Disabling => between(alloc, Double::Disable),
        Sample::Relabelled => over(alloc, Single::Relabel(vec![in alloc; (Gate(0), Gate(2))]?)),
        Sample::Unfit => between(alloc, Double::Choice),
        Sample::Over => Branch::ended(alloc),
    }
}

/// The tree of rules of a part: it acts, or terminates, with this number, or with the mark.
pub fn part_rules(alloc: Global, sample: Sample, chosen: Option<u32>) -> Result<Rules, Memory> {
    let values = slots(alloc, chosen)?;
    match sample {
        Sample::Enabled | Sample::Ended => Ok(Rules::Exit(values)),
        _ => Ok(Rules::Pre(values)),
    }
}

fn both(alloc: Global, sample: Sample, chosen: Option<u32>) -> Result<Rules, Memory> {
    let left = part_rules(alloc, sample, chosen)?;
    let right = part_rules(alloc, sample, chosen)?;
    Rules::both(alloc, left, right)
}

/// The tree of rules over the tree of nodes.
pub fn rules(alloc: Global, sample: Sample, chosen: Option<u32>) -> Result<Rules, Memory> {
    let part = part_rules(alloc, sample, chosen)?;
    match sample {
        Sample::Together => both(alloc, sample, chosen),
        Sample::Hidden => {
            let part = both(alloc, sample, chosen)?;
            Rules::hiding(alloc, part)
        }
        Sample::Alone => Rules::parl(alloc, part),
        Sample::AloneAtAll => Rules::parl(alloc, part),
        Sample::Chosen => Rules::chr(alloc, part),
        Sample::Enabling => Rules::enstep(alloc, part),
        Sample::Enabled => Rules::enend(alloc, part),
        Sample::Ended => Rules::disend(alloc, part),
        Sample::Disabling => Rules::distake(alloc, part),
        Sample::Relabelled => Rules::rel(alloc, part),
        Sample::Unfit => Rules::parl(alloc, part),
        Sample::Over => Ok(part),
    }
}

fn with(alloc: Global, kind: ActionKind, field: ShownField) -> Result<Option<Shown>, Memory> {
    Ok(Some(Shown {
        kind,
        fields: vec![in alloc; field]?,
    }))
}

fn shown(alloc: Global, part: Part) -> Result<Option<Shown>, Memory> {
    let gate = ActionKind::At(Gate(0));
    match part {
        Part::Unknown | Part::Nothing => Ok(None),
        Part::Told(n) => with(alloc, gate, ShownField::Told(number(alloc, n)?)),
        Part::Chosen(n) => with(alloc, gate, ShownField::Chosen(number(alloc, n)?)),
        Part::Given => with(alloc, gate, ShownField::Given(NUMBERS)),
        Part::Free => with(alloc, gate, ShownField::Free(NUMBERS)),
        Part::Ends(n) => with(
            alloc,
            ActionKind::Exit,
            ShownField::Chosen(number(alloc, n)?),
        ),
    }
}

/// Puts in what is known of the node of a generation, if anything is.
pub fn put(
    alloc: Global,
    pieces: &mut Pieces,
    generation: u128,
    rules: Rules,
    part: Part,
) -> Result<(), Memory> {
    match part {
        Part::Unknown => Ok(()),
        _ => {
            let shown = shown(alloc, part)?;
            pieces.put(Piece {
                generation: Gen(generation),
                rules,
                shown,
            })
        }
    }
}
