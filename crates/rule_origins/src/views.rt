// The parts of the constructs at numbers of the code.

ghost use Rattle.std.specs.Prelude.{ℕ, suc, List, [], ◌∷◌, ◌≡◌, ◌<◌, IfOk, IfSome, IfNone, Some, map};
ghost use Rattle.std.specs.List.{slice_get};
ghost use Rattle.spec_core.specs.Code.{Variable, process, program_of, action_field_of, binding_of, exit_value_of, guard_of, relabelling_of};
ghost use Rattle.spec_core.specs.Code.{synchronised_of, variable_of};
ghost use Rattle.spec_core.specs.Numbers.{gate_number};
ghost use Rattle.spec_core.specs.Ready.{IsReady};
ghost use Rattle.spec_core.specs.Terms.{term_of};
ghost use Rattle.spec_core.specs.Theories.{premise};
ghost use Rattle.rule_model.specs.Behaviours.{action, bound, call, choice, disable, enable, exit, gate_choice, guarded, hide, inner};
ghost use Rattle.rule_model.specs.Behaviours.{parallel, relabel, value_choice};
ghost use Rattle.rule_model.specs.Constructs.{OnAction, OnBound, OnCall, OnChoice, OnDisable, OnEnable, OnExit, OnGateChoice, OnGuarded};
ghost use Rattle.rule_model.specs.Constructs.{OnHide, OnInner, OnParallel, OnRelabel, OnValueChoice};
ghost use Rattle.rule_origins.specs.Parts.{behaviour_at};

use crate::code::construct_at;
use rule_code::node_at;
use spec_core::code::{ActField, Checked, CodeNode, ExitField, GateSet};
use spec_core::items::{Gate, Sort};
use spec_core::memory::Memory;
use spec_core::term::Term;
use std::alloc::Global;

/// The gate, the fields, the predicate and what follows, of an action. It takes no memory.
pub fn action_at(
    checked: &Checked,
    number: u32,
) -> Option<(Gate, &[ActField], &Option<(Term, Term)>, u32)>
    requires ready { IsReady (program_of checked.now) }
    ensures some { IfSome result (λ r. behaviour_at (program_of checked.now) number ≡
        action r.0.0 (map action_field_of r.1.now) (guard_of r.2.now) (behaviour_at (program_of checked.now) r.3)) }
    ensures none { IfNone result (OnAction (behaviour_at (program_of checked.now) number) (λ g fields p rest. Unit {0}) → ⊥) }
{
    match construct_at(checked, number) {
        None => None,
        Some(construct) => match construct {
            CodeNode::Act {
                gate,
                fields,
                guard,
                rest,
            } => Some((*gate, fields, guard, rest.0)),
            _ => None,
        },
    }
}

/// What follows an internal action. It takes no memory.
pub fn inner_at(checked: &Checked, number: u32) -> Option<u32>
    requires ready { IsReady (program_of checked.now) }
    ensures some { IfSome result (λ r. behaviour_at (program_of checked.now) number ≡
        inner (behaviour_at (program_of checked.now) r)) }
    ensures none { IfNone result (OnInner (behaviour_at (program_of checked.now) number) (λ rest. Unit {0}) → ⊥) }
{
    match construct_at(checked, number) {
        None => None,
        Some(construct) => match construct {
            CodeNode::Inner(rest) => Some(rest.0),
            _ => None,
        },
    }
}

/// The fields of an exit. It takes no memory.
pub fn exit_at(checked: &Checked, number: u32) -> Option<&[ExitField]>
    requires ready { IsReady (program_of checked.now) }
    ensures some { IfSome result (λ r. behaviour_at (program_of checked.now) number ≡
        exit (map exit_value_of r.now)) }
    ensures none { IfNone result (OnExit (behaviour_at (program_of checked.now) number) (λ fields. Unit {0}) → ⊥) }
{
    match construct_at(checked, number) {
        None => None,
        Some(construct) => match construct {
            CodeNode::Exit(fields) => Some(fields),
            _ => None,
        },
    }
}

/// The sides of a choice. It takes no memory.
pub fn choice_at(checked: &Checked, number: u32) -> Option<(u32, u32)>
    requires ready { IsReady (program_of checked.now) }
    ensures some { IfSome result (λ r. behaviour_at (program_of checked.now) number ≡
        choice (behaviour_at (program_of checked.now) r.0) (behaviour_at (program_of checked.now) r.1)) }
    ensures none { IfNone result (OnChoice (behaviour_at (program_of checked.now) number) (λ left right. Unit {0}) → ⊥) }
{
    match construct_at(checked, number) {
        None => None,
        Some(construct) => match construct {
            CodeNode::Choice(left, right) => Some((left.0, right.0)),
            _ => None,
        },
    }
}

/// The two sides of the premise, and the body, of a guarded behaviour. It takes no memory.
pub fn guarded_at(checked: &Checked, number: u32) -> Option<(&Term, &Term, u32)>
    requires ready { IsReady (program_of checked.now) }
    ensures some { IfSome result (λ r. behaviour_at (program_of checked.now) number ≡
        guarded (premise (term_of r.0.now) (term_of r.1.now)) (behaviour_at (program_of checked.now) r.2)) }
    ensures none { IfNone result (OnGuarded (behaviour_at (program_of checked.now) number) (λ p body. Unit {0}) → ⊥) }
{
    match construct_at(checked, number) {
        None => None,
        Some(construct) => match construct {
            CodeNode::Guard(left, right, body) => Some((left, right, body.0)),
            _ => None,
        },
    }
}

/// The bindings and the body of a `let`. It takes no memory.
pub fn bound_at(checked: &Checked, number: u32) -> Option<(&[(u32, Sort, Term)], u32)>
    requires ready { IsReady (program_of checked.now) }
    ensures some { IfSome result (λ r. behaviour_at (program_of checked.now) number ≡
        bound (map binding_of r.0.now) (behaviour_at (program_of checked.now) r.1)) }
    ensures none { IfNone result (OnBound (behaviour_at (program_of checked.now) number) (λ bindings body. Unit {0}) → ⊥) }
{
    match construct_at(checked, number) {
        None => None,
        Some(construct) => match construct {
            CodeNode::Let(bindings, body) => Some((bindings, body.0)),
            _ => None,
        },
    }
}

/// The variable, its sort and the body of a choice of a value. It takes no memory.
pub fn value_choice_at(checked: &Checked, number: u32) -> Option<(u32, Sort, u32)>
    requires ready { IsReady (program_of checked.now) }
    ensures some { IfSome result (λ r. behaviour_at (program_of checked.now) number ≡
        value_choice (record { number = r.0; sort = r.1.0 }) (behaviour_at (program_of checked.now) r.2)) }
    ensures none { IfNone result (OnValueChoice (behaviour_at (program_of checked.now) number) (λ x body. Unit {0}) → ⊥) }
{
    match construct_at(checked, number) {
        None => None,
        Some(construct) => match construct {
            CodeNode::Values(x, sort, body) => Some((*x, *sort, body.0)),
            _ => None,
        },
    }
}

/// The gate, the gates that it may be, and the body of a choice of a gate. It takes no memory.
pub fn gate_choice_at(checked: &Checked, number: u32) -> Option<(Gate, &[Gate], u32)>
    requires ready { IsReady (program_of checked.now) }
    ensures some { IfSome result (λ r. behaviour_at (program_of checked.now) number ≡
        gate_choice r.0.0 (map gate_number r.1.now) (behaviour_at (program_of checked.now) r.2)) }
    ensures none { IfNone result (OnGateChoice (behaviour_at (program_of checked.now) number) (λ g gates body. Unit {0}) → ⊥) }
{
    match construct_at(checked, number) {
        None => None,
        Some(construct) => match construct {
            CodeNode::Gates(gate, gates, body) => Some((*gate, gates, body.0)),
            _ => None,
        },
    }
}

/// The gates and the sides of a parallel composition. It takes no memory.
pub fn parallel_at(checked: &Checked, number: u32) -> Option<(&GateSet, u32, u32)>
    requires ready { IsReady (program_of checked.now) }
    ensures some { IfSome result (λ r. behaviour_at (program_of checked.now) number ≡
        parallel (synchronised_of r.0.now) (behaviour_at (program_of checked.now) r.1) (behaviour_at (program_of checked.now) r.2)) }
    ensures none { IfNone result (OnParallel (behaviour_at (program_of checked.now) number) (λ gates left right. Unit {0}) → ⊥) }
{
    match construct_at(checked, number) {
        None => None,
        Some(construct) => match construct {
            CodeNode::Par(gates, left, right) => Some((gates, left.0, right.0)),
            _ => None,
        },
    }
}

/// The gates and the body of a hiding. It takes no memory.
pub fn hide_at(checked: &Checked, number: u32) -> Option<(&[Gate], u32)>
    requires ready { IsReady (program_of checked.now) }
    ensures some { IfSome result (λ r. behaviour_at (program_of checked.now) number ≡
        hide (map gate_number r.0.now) (behaviour_at (program_of checked.now) r.1)) }
    ensures none { IfNone result (OnHide (behaviour_at (program_of checked.now) number) (λ gates body. Unit {0}) → ⊥) }
{
    match construct_at(checked, number) {
        None => None,
        Some(construct) => match construct {
            CodeNode::Hide(gates, body) => Some((gates, body.0)),
            _ => None,
        },
    }
}

/// The left side, the variables and the right side of an enabling. It takes no memory.
pub fn enable_at(checked: &Checked, number: u32) -> Option<(u32, &[(u32, Sort)], u32)>
    requires ready { IsReady (program_of checked.now) }
    ensures some { IfSome result (λ r. behaviour_at (program_of checked.now) number ≡
        enable (behaviour_at (program_of checked.now) r.0) (map variable_of r.1.now) (behaviour_at (program_of checked.now) r.2)) }
    ensures none { IfNone result (OnEnable (behaviour_at (program_of checked.now) number) (λ left xs right. Unit {0}) → ⊥) }
{
    match construct_at(checked, number) {
        None => None,
        Some(construct) => match construct {
            CodeNode::Enable(left, vars, right) => Some((left.0, vars, right.0)),
            _ => None,
        },
    }
}

/// The sides of a disabling. It takes no memory.
pub fn disable_at(checked: &Checked, number: u32) -> Option<(u32, u32)>
    requires ready { IsReady (program_of checked.now) }
    ensures some { IfSome result (λ r. behaviour_at (program_of checked.now) number ≡
        disable (behaviour_at (program_of checked.now) r.0) (behaviour_at (program_of checked.now) r.1)) }
    ensures none { IfNone result (OnDisable (behaviour_at (program_of checked.now) number) (λ left right. Unit {0}) → ⊥) }
{
    match construct_at(checked, number) {
        None => None,
        Some(construct) => match construct {
            CodeNode::Disable(left, right) => Some((left.0, right.0)),
            _ => None,
        },
    }
}

/// The process, the gates and the terms of a call. It takes no memory.
pub fn call_at(checked: &Checked, number: u32) -> Option<(u32, &[Gate], &[Term])>
    requires ready { IsReady (program_of checked.now) }
    ensures some { IfSome result (λ r. behaviour_at (program_of checked.now) number ≡
        call r.0 (map gate_number r.1.now) (map term_of r.2.now)) }
    ensures none { IfNone result (OnCall (behaviour_at (program_of checked.now) number) (λ p gates terms. Unit {0}) → ⊥) }
{
    match construct_at(checked, number) {
        None => None,
        Some(construct) => match construct {
            CodeNode::Call {
                process,
                gates,
                values,
            } => Some((*process, gates, values)),
            _ => None,
        },
    }
}

/// The pairs of gates and the body of a relabelling. It takes no memory.
pub fn relabel_at(checked: &Checked, number: u32) -> Option<(&[(Gate, Gate)], u32)>
    requires ready { IsReady (program_of checked.now) }
    ensures some { IfSome result (λ r. behaviour_at (program_of checked.now) number ≡
        relabel (map relabelling_of r.0.now) (behaviour_at (program_of checked.now) r.1)) }
    ensures none { IfNone result (OnRelabel (behaviour_at (program_of checked.now) number) (λ pairs body. Unit {0}) → ⊥) }
    ensures below { IfSome result (λ r. r.1 < number) }
{
    match construct_at(checked, number) {
        None => None,
        Some(construct) => match construct {
            CodeNode::Relabel(pairs, body) => Some((pairs, body.0)),
            _ => None,
        },
    }
}

/// The gates, the variables and the number of the body of the process with this number. It takes no memory.
pub fn definition_at(checked: &Checked, number: u32) -> Option<(&[Gate], &[(u32, Sort)], u32)>
    ensures some { IfSome result (λ r. slice_get (program_of checked.now).code number ≡
        Some (process (map gate_number r.0.now) (map variable_of r.1.now) r.2)) }
    ensures none { IfNone result ((formal : List ℕ) (xs : List Variable) (body : ℕ) →
        slice_get (program_of checked.now).code number ≡ Some (process formal xs body) → ⊥) }
{
    match node_at(checked, number) {
        None => None,
        Some(node) => match node {
            CodeNode::Process { gates, vars, body } => Some((gates, vars, body.0)),
            _ => None,
        },
    }
}
