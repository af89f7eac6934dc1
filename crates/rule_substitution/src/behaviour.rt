// Terms in the places of a behaviour's variables.

ghost use Rattle.std.specs.Prelude.{◌≡◌, IfOk, map};
ghost use Rattle.spec_core.specs.Terms.{term_of};
ghost use Rattle.spec_core.specs.Theories.{premise};
ghost use Rattle.spec_core.specs.Code.{action_field_of, guard_of, binding_of, variable_of};
ghost use Rattle.rule_model.specs.Behaviours.{behaviour_of, action, guarded, bound, value_choice, enable};
ghost use Rattle.rule_model.specs.Substitution.{put, without};
ghost use Rattle.rule_substitution.specs.Scopes.{terms_of};

use crate::scope::Scope;
use rule_model::beh::Beh;
use spec_core::code::ActField;
use spec_core::items::{Gate, Sort};
use spec_core::memory::Memory;
use spec_core::term::Term;
use std::alloc::Global;

impl Scope {
    /// The behaviour with the terms in the places of its free variables.
    #[cycle(put)]
    pub fn put(&self, alloc: Global, from: &Beh) -> Result<Beh, Memory>
        ensures replaced { IfOk result (λ b. behaviour_of b ≡ put (terms_of self.now) (behaviour_of from.now)) }
    {
        match from {
            Beh::Stop => Ok(Beh::Stop),
            Beh::Exit(fields) => Ok(Beh::Exit(self.put_in_exits(alloc, fields)?)),
            Beh::Inner(rest) => Beh::inner(alloc, self.put(alloc, rest)?),
            Beh::Act {
                gate,
                fields,
                guard,
                rest,
            } => self.put_in_action(alloc, *gate, fields, guard, rest),
            Beh::Choice(left, right) => {
                let left = self.put(alloc, left)?;
                let right = self.put(alloc, right)?;
                Beh::choice(alloc, left, right)
            }
            Beh::Guard(left, right, body) => self.put_in_guarded(alloc, left, right, body),
            Beh::Let(bindings, body) => self.put_in_let(alloc, bindings, body),
            Beh::Values(x, sort, body) => self.put_in_values(alloc, *x, *sort, body),
            Beh::Gates(gate, gates, body) => {
                let body = self.put(alloc, body)?;
                Beh::gate_choice(alloc, *gate, Vec::from_slice(alloc, gates)?, body)
            }
            Beh::Par(gates, left, right) => {
                let left = self.put(alloc, left)?;
                let right = self.put(alloc, right)?;
                Beh::parallel(alloc, gates.copy(alloc)?, left, right)
            }
            Beh::Hide(gates, body) => {
                let body = self.put(alloc, body)?;
                Beh::hide(alloc, Vec::from_slice(alloc, gates)?, body)
            }
            Beh::Enable(left, vars, right) => {
                let left = self.put(alloc, left)?;
                self.put_in_enable(alloc, left, vars, right)
            }
            Beh::Disable(left, right) => {
                let left = self.put(alloc, left)?;
                let right = self.put(alloc, right)?;
                Beh::disable(alloc, left, right)
            }
            Beh::Call {
                process,
                gates,
                values,
            } => {
                let gates = Vec::from_slice(alloc, gates)?;
                let values = self.put_in_terms(alloc, values)?;
                Ok(Beh::Call {
                    process: *process,
                    gates,
                    values,
                })
            }
            Beh::Relabel(pairs, body) => {
                let body = self.put(alloc, body)?;
                Beh::relabel(alloc, Vec::from_slice(alloc, pairs)?, body)
            }
        }
    }

    // An action, whose binders are in its predicate and in what follows it.
    #[cycle(put)]
    fn put_in_action(
        &self,
        alloc: Global,
        gate: Gate,
        fields: &[ActField],
        guard: &Option<(Term, Term)>,
        rest: &Beh,
    ) -> Result<Beh, Memory>
        ensures { IfOk result (λ b.
            behaviour_of b ≡
            put (terms_of self.now) (action gate.0 (map action_field_of fields.now) (guard_of guard.now) (behaviour_of rest.now))) }
    {
        let inner = self.without_accepted(alloc, fields)?;
        let rest = inner.put(alloc, rest)?;
        let guard = inner.put_in_guard(alloc, guard)?;
        let fields = self.put_in_fields(alloc, fields)?;
        Beh::act(alloc, gate, fields, guard, rest)
    }

    // A behaviour under a premise.
    #[cycle(put)]
    fn put_in_guarded(
        &self,
        alloc: Global,
        left: &Term,
        right: &Term,
        body: &Beh,
    ) -> Result<Beh, Memory>
        ensures { IfOk result (λ b.
            behaviour_of b ≡
            put (terms_of self.now) (guarded (premise (term_of left.now) (term_of right.now)) (behaviour_of body.now))) }
    {
        let left = self.put_in_term(alloc, left)?;
        let right = self.put_in_term(alloc, right)?;
        let body = self.put(alloc, body)?;
        Beh::guarded(alloc, left, right, body)
    }

    // A `let`, whose binders are in its body.
    #[cycle(put)]
    fn put_in_let(
        &self,
        alloc: Global,
        bindings: &[(u32, Sort, Term)],
        body: &Beh,
    ) -> Result<Beh, Memory>
        ensures { IfOk result (λ b.
            behaviour_of b ≡ put (terms_of self.now) (bound (map binding_of bindings.now) (behaviour_of body.now))) }
    {
        let inner = self.without_bound(alloc, bindings)?;
        let body = inner.put(alloc, body)?;
        let bindings = self.put_in_bindings(alloc, bindings)?;
        Beh::bound(alloc, bindings, body)
    }

    // A choice of a value, whose binder is in its body.
    #[cycle(put)]
    fn put_in_values(&self, alloc: Global, x: u32, sort: Sort, body: &Beh) -> Result<Beh, Memory>
        ensures { IfOk result (λ b.
            behaviour_of b ≡ put (terms_of self.now) (value_choice (record { number = x; sort = sort.0 }) (behaviour_of body.now))) }
    {
        let inner = self.shadowed(alloc, x, sort)?;
        let body = inner.put(alloc, body)?;
        Beh::value_choice(alloc, x, sort, body)
    }

    // An enabling with this left side, whose binders are on its right side.
    #[cycle(put)]
    fn put_in_enable(
        &self,
        alloc: Global,
        left: Beh,
        vars: &[(u32, Sort)],
        right: &Beh,
    ) -> Result<Beh, Memory>
        ensures { IfOk result (λ b.
            behaviour_of b ≡
            enable (behaviour_of left) (map variable_of vars.now)
            (put (without (map variable_of vars.now) (terms_of self.now)) (behaviour_of right.now))) }
    {
        let inner = self.without_variables(alloc, vars)?;
        let right = inner.put(alloc, right)?;
        Beh::enable(alloc, left, Vec::from_slice(alloc, vars)?, right)
    }
}
