// Behaviours.

ghost use Rattle.std.specs.Prelude.{◌≡◌, IfOk, IfSome, IfNone, map};
ghost use Rattle.spec_core.specs.Numbers.{gate_number};
ghost use Rattle.spec_core.specs.Terms.{term_of};
ghost use Rattle.spec_core.specs.Theories.{premise};
ghost use Rattle.spec_core.specs.Code.{variable_of, binding_of, relabelling_of, exit_value_of, action_field_of, synchronised_of, guard_of};
ghost use Rattle.rule_model.specs.Behaviours.{behaviour_of, exit, inner, action, choice, guarded, bound, value_choice, gate_choice};
ghost use Rattle.rule_model.specs.Behaviours.{parallel, hide, enable, disable, call, relabel};
ghost use Rattle.rule_model.specs.Constructs.{OnExit, OnInner, OnAction, OnChoice, OnGuarded, OnBound, OnValueChoice, OnGateChoice};
ghost use Rattle.rule_model.specs.Constructs.{OnParallel, OnHide, OnEnable, OnDisable, OnCall, OnRelabel};

use crate::parts::{copy_act_fields, copy_bindings, copy_exit_fields, copy_guard};
use spec_core::code::{ActField, ExitField, GateSet};
use spec_core::items::{Gate, Sort};
use spec_core::memory::Memory;
use spec_core::term::{Term, copy_terms};
use std::alloc::Global;

/// A behaviour, which contracts see as a `Behaviour`: the constructs of a specification's code, with behaviours in the places of parts. A
/// `u32` beside a `Sort` is a variable's number.
pub enum Beh {
    /// `stop`
    Stop,
    /// `exit(e1, e2)`
    Exit(Vec<ExitField>),
    /// `i; B`
    Inner(Box<Beh>),
    /// `g d1 d2 [t = u]; B`
    Act {
        gate: Gate,
        fields: Vec<ActField>,
        guard: Option<(Term, Term)>,
        rest: Box<Beh>,
    },
    /// `B1 [] B2`
    Choice(Box<Beh>, Box<Beh>),
    /// `[t = u] -> B`
    Guard(Term, Term, Box<Beh>),
    /// `let x:S = E in B`
    Let(Vec<(u32, Sort, Term)>, Box<Beh>),
    /// `choice x:S [] B`
    Values(u32, Sort, Box<Beh>),
    /// `choice g in [a1, a2] [] B`
    Gates(Gate, Vec<Gate>, Box<Beh>),
    /// `B1 |[G]| B2`; `||` has every gate, `|||` none.
    Par(GateSet, Box<Beh>, Box<Beh>),
    /// `hide G in B`
    Hide(Vec<Gate>, Box<Beh>),
    /// `B1 >> accept xs in B2`
    Enable(Box<Beh>, Vec<(u32, Sort)>, Box<Beh>),
    /// `B1 [> B2`
    Disable(Box<Beh>, Box<Beh>),
    /// `P[a1, a2](E1, E2)`, where `process` is the number of a `Process` node.
    Call {
        process: u32,
        gates: Vec<Gate>,
        values: Vec<Term>,
    },
    /// The body with its gates relabelled, each first gate of a pair to the second.
    Relabel(Vec<(Gate, Gate)>, Box<Beh>),
}

// Written out, so that a function which lets a behaviour go has one call there.
impl Drop for Beh {
    fn drop(self) {
        match self {
            Beh::Stop => {}
            Beh::Exit(_) => {}
            Beh::Inner(_) => {}
            Beh::Act {
                gate: _,
                fields: _,
                guard: _,
                rest: _,
            } => {}
            Beh::Choice(_, _) => {}
            Beh::Guard(_, _, _) => {}
            Beh::Let(_, _) => {}
            Beh::Values(_, _, _) => {}
            Beh::Gates(_, _, _) => {}
            Beh::Par(_, _, _) => {}
            Beh::Hide(_, _) => {}
            Beh::Enable(_, _, _) => {}
            Beh::Disable(_, _) => {}
            Beh::Call {
                process: _,
                gates: _,
                values: _,
            } => {}
            Beh::Relabel(_, _) => {}
        }
    }
}

impl Beh {
    /// The internal action, and then the rest.
    pub fn inner(alloc: Global, rest: Beh) -> Result<Beh, Memory>
        ensures made { IfOk result (λ b. behaviour_of b ≡ inner (behaviour_of rest)) }
    {
        let rest = Box::new(alloc, rest)?;
        Ok(Beh::Inner(rest))
    }

    /// An action at a gate, and then the rest.
    pub fn act(
        alloc: Global,
        gate: Gate,
        fields: Vec<ActField>,
        guard: Option<(Term, Term)>,
        rest: Beh,
    ) -> Result<Beh, Memory>
        ensures made { IfOk result (λ b.
            behaviour_of b ≡ action gate.0 (map action_field_of fields.items) (guard_of guard) (behaviour_of rest)) }
    {
        let rest = Box::new(alloc, rest)?;
        Ok(Beh::Act {
            gate,
            fields,
            guard,
            rest,
        })
    }

    /// The choice of two behaviours.
    pub fn choice(alloc: Global, left: Beh, right: Beh) -> Result<Beh, Memory>
        ensures made { IfOk result (λ b. behaviour_of b ≡ choice (behaviour_of left) (behaviour_of right)) }
    {
        let left = Box::new(alloc, left)?;
        let right = Box::new(alloc, right)?;
        Ok(Beh::Choice(left, right))
    }

    /// The body under a premise.
    pub fn guarded(alloc: Global, left: Term, right: Term, body: Beh) -> Result<Beh, Memory>
        ensures made { IfOk result (λ b. behaviour_of b ≡ guarded (premise (term_of left) (term_of right)) (behaviour_of body)) }
    {
        let body = Box::new(alloc, body)?;
        Ok(Beh::Guard(left, right, body))
    }

    /// The body with the values of terms for variables.
    pub fn bound(alloc: Global, bindings: Vec<(u32, Sort, Term)>, body: Beh) -> Result<Beh, Memory>
        ensures made { IfOk result (λ b. behaviour_of b ≡ bound (map binding_of bindings.items) (behaviour_of body)) }
    {
        let body = Box::new(alloc, body)?;
        Ok(Beh::Let(bindings, body))
    }

    /// The body with any value of a sort for a variable.
    pub fn value_choice(alloc: Global, variable: u32, sort: Sort, body: Beh) -> Result<Beh, Memory>
        ensures made { IfOk result (λ b. behaviour_of b ≡ value_choice (record { number = variable; sort = sort.0 }) (behaviour_of body)) }
    {
        let body = Box::new(alloc, body)?;
        Ok(Beh::Values(variable, sort, body))
    }

    /// The body with one of these gates in the place of a gate.
    pub fn gate_choice(
        alloc: Global,
        gate: Gate,
        gates: Vec<Gate>,
        body: Beh,
    ) -> Result<Beh, Memory>
        ensures made { IfOk result (λ b. behaviour_of b ≡ gate_choice gate.0 (map gate_number gates.items) (behaviour_of body)) }
    {
        let body = Box::new(alloc, body)?;
        Ok(Beh::Gates(gate, gates, body))
    }

    /// Two behaviours side by side, synchronised at these gates.
    pub fn parallel(alloc: Global, gates: GateSet, left: Beh, right: Beh) -> Result<Beh, Memory>
        ensures made { IfOk result (λ b. behaviour_of b ≡ parallel (synchronised_of gates) (behaviour_of left) (behaviour_of right)) }
    {
        let left = Box::new(alloc, left)?;
        let right = Box::new(alloc, right)?;
        Ok(Beh::Par(gates, left, right))
    }

    /// The body with these gates hidden.
    pub fn hide(alloc: Global, gates: Vec<Gate>, body: Beh) -> Result<Beh, Memory>
        ensures made { IfOk result (λ b. behaviour_of b ≡ hide (map gate_number gates.items) (behaviour_of body)) }
    {
        let body = Box::new(alloc, body)?;
        Ok(Beh::Hide(gates, body))
    }

    /// The left side, and after its termination the right side, with its values.
    pub fn enable(
        alloc: Global,
        left: Beh,
        vars: Vec<(u32, Sort)>,
        right: Beh,
    ) -> Result<Beh, Memory>
        ensures made { IfOk result (λ b. behaviour_of b ≡ enable (behaviour_of left) (map variable_of vars.items) (behaviour_of right)) }
    {
        let left = Box::new(alloc, left)?;
        let right = Box::new(alloc, right)?;
        Ok(Beh::Enable(left, vars, right))
    }

    /// The left side, which the right side may disable.
    pub fn disable(alloc: Global, left: Beh, right: Beh) -> Result<Beh, Memory>
        ensures made { IfOk result (λ b. behaviour_of b ≡ disable (behaviour_of left) (behaviour_of right)) }
    {
        let left = Box::new(alloc, left)?;
        let right = Box::new(alloc, right)?;
        Ok(Beh::Disable(left, right))
    }

    /// The body with its gates relabelled.
    pub fn relabel(alloc: Global, pairs: Vec<(Gate, Gate)>, body: Beh) -> Result<Beh, Memory>
        ensures made { IfOk result (λ b. behaviour_of b ≡ relabel (map relabelling_of pairs.items) (behaviour_of body)) }
    {
        let body = Box::new(alloc, body)?;
        Ok(Beh::Relabel(pairs, body))
    }

    /// An equal behaviour.
    pub fn copy(&self, alloc: Global) -> Result<Beh, Memory>
        ensures equal { IfOk result (λ b. behaviour_of b ≡ behaviour_of self.now) }
    {
        match self {
            Beh::Stop => Ok(Beh::Stop),
            Beh::Exit(fields) => Ok(Beh::Exit(copy_exit_fields(alloc, fields)?)),
            Beh::Inner(rest) => {
                let rest = rest.copy(alloc)?;
                Beh::inner(alloc, rest)
            }
            Beh::Act {
                gate,
                fields,
                guard,
                rest,
            } => {
                let gate = *gate;
                let fields = copy_act_fields(alloc, fields)?;
                let guard = copy_guard(alloc, guard)?;
                let rest = rest.copy(alloc)?;
                Beh::act(alloc, gate, fields, guard, rest)
            }
            Beh::Choice(left, right) => {
                let left = left.copy(alloc)?;
                let right = right.copy(alloc)?;
                Beh::choice(alloc, left, right)
            }
            Beh::Guard(left, right, body) => {
                let left = left.copy(alloc)?;
                let right = right.copy(alloc)?;
                let body = body.copy(alloc)?;
                Beh::guarded(alloc, left, right, body)
            }
            Beh::Let(bindings, body) => {
                let bindings = copy_bindings(alloc, bindings)?;
                let body = body.copy(alloc)?;
                Beh::bound(alloc, bindings, body)
            }
            Beh::Values(variable, sort, body) => {
                let variable = *variable;
                let sort = *sort;
                let body = body.copy(alloc)?;
                Beh::value_choice(alloc, variable, sort, body)
            }
            Beh::Gates(gate, gates, body) => {
                let gate = *gate;
                let gates = Vec::from_slice(alloc, gates)?;
                let body = body.copy(alloc)?;
                Beh::gate_choice(alloc, gate, gates, body)
            }
            Beh::Par(gates, left, right) => {
                let gates = gates.copy(alloc)?;
                let left = left.copy(alloc)?;
                let right = right.copy(alloc)?;
                Beh::parallel(alloc, gates, left, right)
            }
            Beh::Hide(gates, body) => {
                let gates = Vec::from_slice(alloc, gates)?;
                let body = body.copy(alloc)?;
                Beh::hide(alloc, gates, body)
            }
            Beh::Enable(left, vars, right) => {
                let left = left.copy(alloc)?;
                let vars = Vec::from_slice(alloc, vars)?;
                let right = right.copy(alloc)?;
                Beh::enable(alloc, left, vars, right)
            }
            Beh::Disable(left, right) => {
                let left = left.copy(alloc)?;
                let right = right.copy(alloc)?;
                Beh::disable(alloc, left, right)
            }
            Beh::Call {
                process,
                gates,
                values,
            } => {
                let process = *process;
                let gates = Vec::from_slice(alloc, gates)?;
                let values = copy_terms(alloc, values)?;
                Ok(Beh::Call {
                    process,
                    gates,
                    values,
                })
            }
            Beh::Relabel(pairs, body) => {
                let pairs = Vec::from_slice(alloc, pairs)?;
                let body = body.copy(alloc)?;
                Beh::relabel(alloc, pairs, body)
            }
        }
    }
}
