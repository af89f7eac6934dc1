// A behaviour seen as one construct.

ghost use Rattle.std.specs.Prelude.{◌≡◌, IfSome, IfNone, map};
ghost use Rattle.spec_core.specs.Numbers.{gate_number};
ghost use Rattle.spec_core.specs.Terms.{term_of};
ghost use Rattle.spec_core.specs.Theories.{premise};
ghost use Rattle.spec_core.specs.Code.{variable_of, binding_of, relabelling_of, exit_value_of, action_field_of, synchronised_of, guard_of};
ghost use Rattle.rule_model.specs.Behaviours.{behaviour_of, exit, inner, action, choice, guarded, bound, value_choice, gate_choice};
ghost use Rattle.rule_model.specs.Behaviours.{parallel, hide, enable, disable, call, relabel};
ghost use Rattle.rule_model.specs.Constructs.{OnExit, OnInner, OnAction, OnChoice, OnGuarded, OnBound, OnValueChoice, OnGateChoice};
ghost use Rattle.rule_model.specs.Constructs.{OnParallel, OnHide, OnEnable, OnDisable, OnCall, OnRelabel};

use crate::beh::Beh;
use spec_core::code::{ActField, ExitField, GateSet};
use spec_core::items::{Gate, Sort};
use spec_core::term::Term;

impl Beh {
    /// The fields of an exit. None for any other behaviour. It takes no memory.
    pub fn as_exit(&self) -> Option<&[ExitField]>
        ensures some { IfSome result (λ r. behaviour_of self.now ≡ exit (map exit_value_of r.now)) }
        ensures none { IfNone result (OnExit (behaviour_of self.now) (λ _. Unit {0}) → ⊥) }
    {
        match self {
            Beh::Exit(fields) => Some(fields),
            Beh::Stop
            | Beh::Inner(..)
            | Beh::Act { .. }
            | Beh::Choice(..)
            | Beh::Guard(..)
            | Beh::Let(..)
            | Beh::Values(..)
            | Beh::Gates(..)
            | Beh::Par(..)
            | Beh::Hide(..)
            | Beh::Enable(..)
            | Beh::Disable(..)
            | Beh::Call { .. }
            | Beh::Relabel(..) => None,
        }
    }

    /// What follows an internal action. None for any other behaviour. It takes no memory.
    pub fn as_inner(&self) -> Option<&Beh>
        ensures some { IfSome result (λ r. behaviour_of self.now ≡ inner (behaviour_of r.now)) }
        ensures none { IfNone result (OnInner (behaviour_of self.now) (λ _. Unit {0}) → ⊥) }
    {
        match self {
            Beh::Inner(rest) => Some(rest),
            Beh::Stop
            | Beh::Exit(..)
            | Beh::Act { .. }
            | Beh::Choice(..)
            | Beh::Guard(..)
            | Beh::Let(..)
            | Beh::Values(..)
            | Beh::Gates(..)
            | Beh::Par(..)
            | Beh::Hide(..)
            | Beh::Enable(..)
            | Beh::Disable(..)
            | Beh::Call { .. }
            | Beh::Relabel(..) => None,
        }
    }

    /// The gate, the fields, the predicate and what follows of an action. None for any other behaviour. It takes no memory.
    pub fn as_action(&self) -> Option<(Gate, &[ActField], &Option<(Term, Term)>, &Beh)>
        ensures some { IfSome result (λ r.
            behaviour_of self.now ≡ action r.0.0 (map action_field_of r.1.now) (guard_of r.2.now) (behaviour_of r.3.now)) }
        ensures none { IfNone result (OnAction (behaviour_of self.now) (λ _ _ _ _. Unit {0}) → ⊥) }
    {
        match self {
            Beh::Act {
                gate,
                fields,
                guard,
                rest,
            } => Some((*gate, fields, guard, rest)),
            Beh::Stop
            | Beh::Exit(..)
            | Beh::Inner(..)
            | Beh::Choice(..)
            | Beh::Guard(..)
            | Beh::Let(..)
            | Beh::Values(..)
            | Beh::Gates(..)
            | Beh::Par(..)
            | Beh::Hide(..)
            | Beh::Enable(..)
            | Beh::Disable(..)
            | Beh::Call { .. }
            | Beh::Relabel(..) => None,
        }
    }

    /// The two sides of a choice. None for any other behaviour. It takes no memory.
    pub fn as_choice(&self) -> Option<(&Beh, &Beh)>
        ensures some { IfSome result (λ r. behaviour_of self.now ≡ choice (behaviour_of r.0.now) (behaviour_of r.1.now)) }
        ensures none { IfNone result (OnChoice (behaviour_of self.now) (λ _ _. Unit {0}) → ⊥) }
    {
        match self {
            Beh::Choice(left, right) => Some((left, right)),
            Beh::Stop
            | Beh::Exit(..)
            | Beh::Inner(..)
            | Beh::Act { .. }
            | Beh::Guard(..)
            | Beh::Let(..)
            | Beh::Values(..)
            | Beh::Gates(..)
            | Beh::Par(..)
            | Beh::Hide(..)
            | Beh::Enable(..)
            | Beh::Disable(..)
            | Beh::Call { .. }
            | Beh::Relabel(..) => None,
        }
    }

    /// The two sides of the premise and the body of a guarded behaviour. None for any other behaviour. It takes no memory.
    pub fn as_guarded(&self) -> Option<(&Term, &Term, &Beh)>
        ensures some { IfSome result (λ r.
            behaviour_of self.now ≡ guarded (premise (term_of r.0.now) (term_of r.1.now)) (behaviour_of r.2.now)) }
        ensures none { IfNone result (OnGuarded (behaviour_of self.now) (λ _ _. Unit {0}) → ⊥) }
    {
        match self {
            Beh::Guard(left, right, body) => Some((left, right, body)),
            Beh::Stop
            | Beh::Exit(..)
            | Beh::Inner(..)
            | Beh::Act { .. }
            | Beh::Choice(..)
            | Beh::Let(..)
            | Beh::Values(..)
            | Beh::Gates(..)
            | Beh::Par(..)
            | Beh::Hide(..)
            | Beh::Enable(..)
            | Beh::Disable(..)
            | Beh::Call { .. }
            | Beh::Relabel(..) => None,
        }
    }

    /// The bindings and the body of a `let`. None for any other behaviour. It takes no memory.
    pub fn as_bound(&self) -> Option<(&[(u32, Sort, Term)], &Beh)>
        ensures some { IfSome result (λ r. behaviour_of self.now ≡ bound (map binding_of r.0.now) (behaviour_of r.1.now)) }
        ensures none { IfNone result (OnBound (behaviour_of self.now) (λ _ _. Unit {0}) → ⊥) }
    {
        match self {
            Beh::Let(bindings, body) => Some((bindings, body)),
            Beh::Stop
            | Beh::Exit(..)
            | Beh::Inner(..)
            | Beh::Act { .. }
            | Beh::Choice(..)
            | Beh::Guard(..)
            | Beh::Values(..)
            | Beh::Gates(..)
            | Beh::Par(..)
            | Beh::Hide(..)
            | Beh::Enable(..)
            | Beh::Disable(..)
            | Beh::Call { .. }
            | Beh::Relabel(..) => None,
        }
    }

    /// The variable, its sort and the body of a choice of a value. None for any other behaviour. It takes no memory.
    pub fn as_value_choice(&self) -> Option<(u32, Sort, &Beh)>
        ensures some { IfSome result (λ r.
            behaviour_of self.now ≡ value_choice (record { number = r.0; sort = r.1.0 }) (behaviour_of r.2.now)) }
        ensures none { IfNone result (OnValueChoice (behaviour_of self.now) (λ _ _. Unit {0}) → ⊥) }
    {
        match self {
            Beh::Values(variable, sort, body) => Some((*variable, *sort, body)),
            Beh::Stop
            | Beh::Exit(..)
            | Beh::Inner(..)
            | Beh::Act { .. }
            | Beh::Choice(..)
            | Beh::Guard(..)
            | Beh::Let(..)
            | Beh::Gates(..)
            | Beh::Par(..)
            | Beh::Hide(..)
            | Beh::Enable(..)
            | Beh::Disable(..)
            | Beh::Call { .. }
            | Beh::Relabel(..) => None,
        }
    }

    /// The gate, the gates in its place and the body of a choice of a gate. None for any other behaviour. It takes no memory.
    pub fn as_gate_choice(&self) -> Option<(Gate, &[Gate], &Beh)>
        ensures some { IfSome result (λ r. behaviour_of self.now ≡ gate_choice r.0.0 (map gate_number r.1.now) (behaviour_of r.2.now)) }
        ensures none { IfNone result (OnGateChoice (behaviour_of self.now) (λ _ _ _. Unit {0}) → ⊥) }
    {
        match self {
            Beh::Gates(gate, gates, body) => Some((*gate, gates, body)),
            Beh::Stop
            | Beh::Exit(..)
            | Beh::Inner(..)
            | Beh::Act { .. }
            | Beh::Choice(..)
            | Beh::Guard(..)
            | Beh::Let(..)
            | Beh::Values(..)
            | Beh::Par(..)
            | Beh::Hide(..)
            | Beh::Enable(..)
            | Beh::Disable(..)
            | Beh::Call { .. }
            | Beh::Relabel(..) => None,
        }
    }

    /// The gates and the two sides of a parallel composition. None for any other behaviour. It takes no memory.
    pub fn as_parallel(&self) -> Option<(&GateSet, &Beh, &Beh)>
        ensures some { IfSome result (λ r.
            behaviour_of self.now ≡ parallel (synchronised_of r.0.now) (behaviour_of r.1.now) (behaviour_of r.2.now)) }
        ensures none { IfNone result (OnParallel (behaviour_of self.now) (λ _ _ _. Unit {0}) → ⊥) }
    {
        match self {
            Beh::Par(gates, left, right) => Some((gates, left, right)),
            Beh::Stop
            | Beh::Exit(..)
            | Beh::Inner(..)
            | Beh::Act { .. }
            | Beh::Choice(..)
            | Beh::Guard(..)
            | Beh::Let(..)
            | Beh::Values(..)
            | Beh::Gates(..)
            | Beh::Hide(..)
            | Beh::Enable(..)
            | Beh::Disable(..)
            | Beh::Call { .. }
            | Beh::Relabel(..) => None,
        }
    }

    /// The gates and the body of a hiding. None for any other behaviour. It takes no memory.
    pub fn as_hide(&self) -> Option<(&[Gate], &Beh)>
        ensures some { IfSome result (λ r. behaviour_of self.now ≡ hide (map gate_number r.0.now) (behaviour_of r.1.now)) }
        ensures none { IfNone result (OnHide (behaviour_of self.now) (λ _ _. Unit {0}) → ⊥) }
    {
        match self {
            Beh::Hide(gates, body) => Some((gates, body)),
            Beh::Stop
            | Beh::Exit(..)
            | Beh::Inner(..)
            | Beh::Act { .. }
            | Beh::Choice(..)
            | Beh::Guard(..)
            | Beh::Let(..)
            | Beh::Values(..)
            | Beh::Gates(..)
            | Beh::Par(..)
            | Beh::Enable(..)
            | Beh::Disable(..)
            | Beh::Call { .. }
            | Beh::Relabel(..) => None,
        }
    }

    /// The left side, the variables and the right side of an enabling. None for any other behaviour. It takes no memory.
    pub fn as_enable(&self) -> Option<(&Beh, &[(u32, Sort)], &Beh)>
        ensures some { IfSome result (λ r.
            behaviour_of self.now ≡ enable (behaviour_of r.0.now) (map variable_of r.1.now) (behaviour_of r.2.now)) }
        ensures none { IfNone result (OnEnable (behaviour_of self.now) (λ _ _ _. Unit {0}) → ⊥) }
    {
        match self {
            Beh::Enable(left, vars, right) => Some((left, vars, right)),
            Beh::Stop
            | Beh::Exit(..)
            | Beh::Inner(..)
            | Beh::Act { .. }
            | Beh::Choice(..)
            | Beh::Guard(..)
            | Beh::Let(..)
            | Beh::Values(..)
            | Beh::Gates(..)
            | Beh::Par(..)
            | Beh::Hide(..)
            | Beh::Disable(..)
            | Beh::Call { .. }
            | Beh::Relabel(..) => None,
        }
    }

    /// The two sides of a disabling. None for any other behaviour. It takes no memory.
    pub fn as_disable(&self) -> Option<(&Beh, &Beh)>
        ensures some { IfSome result (λ r. behaviour_of self.now ≡ disable (behaviour_of r.0.now) (behaviour_of r.1.now)) }
        ensures none { IfNone result (OnDisable (behaviour_of self.now) (λ _ _. Unit {0}) → ⊥) }
    {
        match self {
            Beh::Disable(left, right) => Some((left, right)),
            Beh::Stop
            | Beh::Exit(..)
            | Beh::Inner(..)
            | Beh::Act { .. }
            | Beh::Choice(..)
            | Beh::Guard(..)
            | Beh::Let(..)
            | Beh::Values(..)
            | Beh::Gates(..)
            | Beh::Par(..)
            | Beh::Hide(..)
            | Beh::Enable(..)
            | Beh::Call { .. }
            | Beh::Relabel(..) => None,
        }
    }

    /// The process, the gates and the terms of a call. None for any other behaviour. It takes no memory.
    pub fn as_call(&self) -> Option<(u32, &[Gate], &[Term])>
        ensures some { IfSome result (λ r. behaviour_of self.now ≡ call r.0 (map gate_number r.1.now) (map term_of r.2.now)) }
        ensures none { IfNone result (OnCall (behaviour_of self.now) (λ _ _ _. Unit {0}) → ⊥) }
    {
        match self {
            Beh::Call {
                process,
                gates,
                values,
            } => Some((*process, gates, values)),
            Beh::Stop
            | Beh::Exit(..)
            | Beh::Inner(..)
            | Beh::Act { .. }
            | Beh::Choice(..)
            | Beh::Guard(..)
            | Beh::Let(..)
            | Beh::Values(..)
            | Beh::Gates(..)
            | Beh::Par(..)
            | Beh::Hide(..)
            | Beh::Enable(..)
            | Beh::Disable(..)
            | Beh::Relabel(..) => None,
        }
    }

    /// The pairs of gates and the body of a relabelled behaviour. None for any other behaviour. It takes no memory.
    pub fn as_relabel(&self) -> Option<(&[(Gate, Gate)], &Beh)>
        ensures some { IfSome result (λ r. behaviour_of self.now ≡ relabel (map relabelling_of r.0.now) (behaviour_of r.1.now)) }
        ensures none { IfNone result (OnRelabel (behaviour_of self.now) (λ _ _. Unit {0}) → ⊥) }
    {
        match self {
            Beh::Relabel(pairs, body) => Some((pairs, body)),
            Beh::Stop
            | Beh::Exit(..)
            | Beh::Inner(..)
            | Beh::Act { .. }
            | Beh::Choice(..)
            | Beh::Guard(..)
            | Beh::Let(..)
            | Beh::Values(..)
            | Beh::Gates(..)
            | Beh::Par(..)
            | Beh::Hide(..)
            | Beh::Enable(..)
            | Beh::Disable(..)
            | Beh::Call { .. } => None,
        }
    }
}
