// Tests of kinds of actions: which rules let an action pass.

ghost use Rattle.std.specs.Prelude.{◌≡◌, map};
ghost use Rattle.spec_core.specs.Code.{relabelling_of, synchronised_of};
ghost use Rattle.spec_core.specs.Numbers.{gate_number};
ghost use Rattle.rule_model.specs.Actions.{synchronises};
ghost use Rattle.symbolic_rules.specs.MayDerive.{renamed_kind};
ghost use Rattle.symbolic_composites.specs.Kinds as kinds;
ghost use Rattle.symbolic_plans.specs.OpenPlans.{kind_in};

use crate::composite::ActionKind;
use rule_substitution::relabelling::{is_among, renamed_gate};
use spec_core::code::GateSet;
use spec_core::items::Gate;

// Whether a parallel composition synchronises at the gate.
fn is_synchronised(gates: &GateSet, gate: Gate) -> bool
    ensures { result ≡ synchronises (synchronised_of gates.now) gate.0 }
{
    match gates {
        GateSet::Every => true,
        GateSet::These(these) => is_among(gate, these),
    }
}

/// Whether one side of a parallel composition does it alone. It takes no memory.
pub fn is_alone(gates: &GateSet, kind: ActionKind) -> bool
    ensures alone { result ≡ kinds.is_alone (synchronised_of gates.now) (kind_in kind) }
{
    match kind {
        ActionKind::Inner => true,
        ActionKind::Exit => false,
        ActionKind::At(gate) => !is_synchronised(gates, gate),
    }
}

/// Whether both sides of a parallel composition do it together. It takes no memory.
pub fn is_joint(gates: &GateSet, kind: ActionKind) -> bool
    ensures joint { result ≡ kinds.is_joint (synchronised_of gates.now) (kind_in kind) }
{
    match kind {
        ActionKind::Inner => false,
        ActionKind::Exit => true,
        ActionKind::At(gate) => is_synchronised(gates, gate),
    }
}

/// Whether a hiding makes it internal. It takes no memory.
pub fn is_hidden(gates: &[Gate], kind: ActionKind) -> bool
    ensures hidden { result ≡ kinds.is_hidden (map gate_number gates.now) (kind_in kind) }
{
    match kind {
        ActionKind::Inner => false,
        ActionKind::Exit => false,
        ActionKind::At(gate) => is_among(gate, gates),
    }
}

/// Whether it is the termination. It takes no memory.
pub fn is_end(kind: ActionKind) -> bool
    ensures end { result ≡ kinds.is_end (kind_in kind) }
{
    match kind {
        ActionKind::Inner => false,
        ActionKind::Exit => true,
        ActionKind::At(_) => false,
    }
}

/// Whether two actions are of one kind. It takes no memory.
pub fn same_kind(left: ActionKind, right: ActionKind) -> bool
    ensures same { result ≡ kinds.same_kind (kind_in left) (kind_in right) }
{
    match left {
        ActionKind::Inner => match right {
            ActionKind::Inner => true,
            ActionKind::Exit => false,
            ActionKind::At(_) => false,
        },
        ActionKind::Exit => match right {
            ActionKind::Inner => false,
            ActionKind::Exit => true,
            ActionKind::At(_) => false,
        },
        ActionKind::At(gate) => match right {
            ActionKind::Inner => false,
            ActionKind::Exit => false,
            ActionKind::At(other) => gate.0 == other.0,
        },
    }
}

/// The kind at the gate that stands in the place of its own. It takes no memory.
pub fn renamed(pairs: &[(Gate, Gate)], kind: ActionKind) -> ActionKind
    ensures renamed { kind_in result ≡ renamed_kind (map relabelling_of pairs.now) (kind_in kind) }
{
    match kind {
        ActionKind::Inner => ActionKind::Inner,
        ActionKind::Exit => ActionKind::Exit,
        ActionKind::At(gate) => ActionKind::At(renamed_gate(pairs, gate)),
    }
}
