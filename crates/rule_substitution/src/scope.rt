// Terms for variables.

ghost use Rattle.std.specs.Prelude.{◌≡◌, IfOk, map};
ghost use Rattle.spec_core.specs.Terms.{instance, term_of, variable};
ghost use Rattle.spec_core.specs.Code.{action_field_of, exit_value_of, guard_of, binding_of, variable_of};
ghost use Rattle.spec_core.specs.Functionality.{accepted, bound_variables};
ghost use Rattle.rule_model.specs.Substitution.{with_term, without, put_in_field, put_in_exit, put_in_guard, put_in_binding};
ghost use Rattle.rule_substitution.specs.Scopes.{terms_of};

use spec_core::code::{ActField, ExitField};
use spec_core::items::Sort;
use spec_core::memory::Memory;
use spec_core::term::Term;
use std::alloc::Global;

/// Terms for variables, the latest outermost, which contracts see as an `Assignment`.
pub enum Scope {
    /// Each variable stands for itself.
    Empty,
    /// A term for the variable of this number, and for each other one what the scope has.
    More(Box<Scope>, u32, Term),
}

// Written out, so that a function which lets a scope go has one call there.
impl Drop for Scope {
    fn drop(self) {
        match self {
            Scope::Empty => {}
            Scope::More(_, _, _) => {}
        }
    }
}

impl Scope {
    /// An equal scope.
    pub fn copy(&self, alloc: Global) -> Result<Scope, Memory>
        ensures equal { IfOk result (λ s. terms_of s ≡ terms_of self.now) }
    {
        match self {
            Scope::Empty => Ok(Scope::Empty),
            Scope::More(before, x, term) => {
                let before = Box::new(alloc, before.copy(alloc)?)?;
                Ok(Scope::More(before, *x, term.copy(alloc)?))
            }
        }
    }

    /// The term for the variable, and for each other one what this scope has.
    pub fn with(&self, alloc: Global, x: u32, sort: Sort, term: &Term) -> Result<Scope, Memory>
        ensures with { IfOk result
            (λ s. terms_of s ≡ with_term (record { number = x; sort = sort.0 }) (term_of term.now) (terms_of self.now)) }
    {
        let before = Box::new(alloc, self.copy(alloc)?)?;
        Ok(Scope::More(before, x, term.copy(alloc)?))
    }

    /// Nothing for the variable: it stands for itself.
    pub fn shadowed(&self, alloc: Global, x: u32, sort: Sort) -> Result<Scope, Memory>
        ensures shadowed { IfOk result
            (λ s. terms_of s ≡ with_term (record { number = x; sort = sort.0 }) (variable x) (terms_of self.now)) }
    {
        self.with(alloc, x, sort, &Term::Var(x))
    }

    /// The term for a variable.
    pub fn at(&self, alloc: Global, x: u32) -> Result<Term, Memory>
        ensures at { IfOk result (λ t. term_of t ≡ terms_of self.now x) }
    {
        match self {
            Scope::Empty => Ok(Term::Var(x)),
            Scope::More(before, y, term) => {
                if x == *y {
                    term.copy(alloc)
                } else {
                    before.at(alloc, x)
                }
            }
        }
    }

    /// The term with those of the scope in the places of its variables.
    pub fn put_in_term(&self, alloc: Global, term: &Term) -> Result<Term, Memory>
        ensures replaced { IfOk result (λ t. term_of t ≡ instance (terms_of self.now) (term_of term.now)) }
    {
        match term {
            Term::Var(variable) => self.at(alloc, *variable),
            Term::App(op, args) => {
                let mut all = Vec::new(alloc);
                for arg in args {
                    all.push(self.put_in_term(alloc, arg)?)?;
                }
                Ok(Term::App(*op, all))
            }
        }
    }

    /// Nothing for the variables that the fields bind.
    pub fn without_accepted(&self, alloc: Global, fields: &[ActField]) -> Result<Scope, Memory>
        ensures without { IfOk result (λ s. terms_of s ≡ without (accepted (map action_field_of fields.now)) (terms_of self.now)) }
    {
        match fields {
            [] => self.copy(alloc),
            [first, rest @ ..] => match first {
                ActField::Give(_) => self.without_accepted(alloc, rest),
                ActField::Take(x, sort) => {
                    let inner = self.shadowed(alloc, *x, *sort)?;
                    inner.without_accepted(alloc, rest)
                }
            },
        }
    }

    /// Nothing for the variables that a `let` binds.
    pub fn without_bound(
        &self,
        alloc: Global,
        bindings: &[(u32, Sort, Term)],
    ) -> Result<Scope, Memory>
        ensures without { IfOk result (λ s. terms_of s ≡ without (bound_variables (map binding_of bindings.now)) (terms_of self.now)) }
    {
        match bindings {
            [] => self.copy(alloc),
            [first, rest @ ..] => {
                let (x, sort, _) = first;
                let inner = self.shadowed(alloc, *x, *sort)?;
                inner.without_bound(alloc, rest)
            }
        }
    }

    /// Nothing for these variables.
    pub fn without_variables(&self, alloc: Global, vars: &[(u32, Sort)]) -> Result<Scope, Memory>
        ensures without { IfOk result (λ s. terms_of s ≡ without (map variable_of vars.now) (terms_of self.now)) }
    {
        match vars {
            [] => self.copy(alloc),
            [first, rest @ ..] => {
                let (x, sort) = *first;
                let inner = self.shadowed(alloc, x, sort)?;
                inner.without_variables(alloc, rest)
            }
        }
    }

    /// The field with the terms in the places of the variables of its expression.
    pub fn put_in_field(&self, alloc: Global, field: &ActField) -> Result<ActField, Memory>
        ensures replaced { IfOk result (λ f. action_field_of f ≡ put_in_field (terms_of self.now) (action_field_of field.now)) }
    {
        match field {
            ActField::Give(term) => Ok(ActField::Give(self.put_in_term(alloc, term)?)),
            ActField::Take(x, sort) => Ok(ActField::Take(*x, *sort)),
        }
    }

    /// The fields of an action with the terms in the places of the variables of their expressions.
    pub fn put_in_fields(&self, alloc: Global, fields: &[ActField]) -> Result<Vec<ActField>, Memory>
        ensures replaced { IfOk result
            (λ all. map action_field_of all.items ≡ map (put_in_field (terms_of self.now)) (map action_field_of fields.now)) }
    {
        let mut all = Vec::new(alloc);
        for field in fields {
            all.push(self.put_in_field(alloc, field)?)?;
        }
        Ok(all)
    }

    /// The field of an exit with the terms in the places of the variables of its expression.
    pub fn put_in_exit(&self, alloc: Global, field: &ExitField) -> Result<ExitField, Memory>
        ensures replaced { IfOk result (λ f. exit_value_of f ≡ put_in_exit (terms_of self.now) (exit_value_of field.now)) }
    {
        match field {
            ExitField::Give(term) => Ok(ExitField::Give(self.put_in_term(alloc, term)?)),
            ExitField::Any(sort) => Ok(ExitField::Any(*sort)),
        }
    }

    /// The fields of an exit with the terms in the places of the variables of their expressions.
    pub fn put_in_exits(
        &self,
        alloc: Global,
        fields: &[ExitField],
    ) -> Result<Vec<ExitField>, Memory>
        ensures replaced { IfOk result
            (λ all. map exit_value_of all.items ≡ map (put_in_exit (terms_of self.now)) (map exit_value_of fields.now)) }
    {
        let mut all = Vec::new(alloc);
        for field in fields {
            all.push(self.put_in_exit(alloc, field)?)?;
        }
        Ok(all)
    }

    /// The predicate with the terms in the places of its variables, if there is one.
    pub fn put_in_guard(
        &self,
        alloc: Global,
        guard: &Option<(Term, Term)>,
    ) -> Result<Option<(Term, Term)>, Memory>
        ensures replaced { IfOk result (λ g. guard_of g ≡ put_in_guard (terms_of self.now) (guard_of guard.now)) }
    {
        match guard {
            None => Ok(None),
            Some((left, right)) => {
                let left = self.put_in_term(alloc, left)?;
                let right = self.put_in_term(alloc, right)?;
                Ok(Some((left, right)))
            }
        }
    }

    /// The bindings with the terms in the places of the variables of theirs.
    pub fn put_in_bindings(
        &self,
        alloc: Global,
        bindings: &[(u32, Sort, Term)],
    ) -> Result<Vec<(u32, Sort, Term)>, Memory>
        ensures replaced { IfOk result
            (λ all. map binding_of all.items ≡ map (put_in_binding (terms_of self.now)) (map binding_of bindings.now)) }
    {
        let mut all = Vec::new(alloc);
        for binding in bindings {
            let (x, sort, term) = binding;
            all.push((*x, *sort, self.put_in_term(alloc, term)?))?;
        }
        Ok(all)
    }

    /// The terms with those of the scope in the places of their variables.
    pub fn put_in_terms(&self, alloc: Global, terms: &[Term]) -> Result<Vec<Term>, Memory>
        ensures replaced { IfOk result (λ all. map term_of all.items ≡ map (instance (terms_of self.now)) (map term_of terms.now)) }
    {
        let mut all = Vec::new(alloc);
        for term in terms {
            all.push(self.put_in_term(alloc, term)?)?;
        }
        Ok(all)
    }
}
