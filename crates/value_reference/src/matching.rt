// Matching and instances, plainly.

ghost use Rattle.std.specs.Prelude.{ℕ, ◌≡◌, ◌<◌, ◌≤◌, ◌^◌, IfOk, IfSome, IfNone, MatchOption, map};
ghost use Rattle.spec_core.specs.Substitutions.{substitution_of};
ghost use Rattle.spec_core.specs.Terms.{TermTree, apply, instance, terms, term_of, Occurs};

use spec_core::items::Op;
use spec_core::memory::Memory;
use spec_core::term::{Term, copy_terms};
use std::alloc::Global;

/// The term with `bound[x]` in place of each variable x that the list reaches.
pub fn instantiate(alloc: Global, bound: &[Term], term: &Term) -> Result<Term, Memory>
    ensures replaced { IfOk result (λ t. term_of t ≡ instance (substitution_of (map term_of bound.now)) (term_of term.now)) }
{
    match term {
        Term::Var(variable) => {
            let place = *variable as usize;
            if place < bound.len() {
                bound[place].copy(alloc)
            } else {
                Ok(Term::Var(*variable))
            }
        }
        Term::App(op, args) => {
            let mut all = Vec::new(alloc);
            for arg in args {
                all.push(instantiate(alloc, bound, arg)?)?;
            }
            Ok(Term::App(*op, all))
        }
    }
}

/// The terms for the variables of a pattern with which it becomes the operation over the values, if there are such.
pub fn match_pattern(
    alloc: Global,
    pattern: &Term,
    op: Op,
    values: &[Term],
) -> Result<Option<Vec<Term>>, Memory>
    ensures some { IfOk result (λ m. MatchOption m (Unit {0}) (λ bound.
        instance (substitution_of (map term_of bound.items)) (term_of pattern.now) ≡ apply op.0 (terms (map term_of values.now)))) }
    ensures none { IfOk result (λ m. MatchOption m
        ((s : ℕ → TermTree) → instance s (term_of pattern.now) ≡ apply op.0 (terms (map term_of values.now)) → ⊥)
        (λ _. Unit {0})) }
{
    let call = Term::App(op, copy_terms(alloc, values)?);
    let bound = bind_variables(alloc, pattern, &call)?;
    let matches = instantiate(alloc, &bound, pattern)?.same(&call);
    if matches { Ok(Some(bound)) } else { Ok(None) }
}

// What stands in the value at the places of the pattern's variables.
fn bind_variables(alloc: Global, pattern: &Term, value: &Term) -> Result<Vec<Term>, Memory>
    ensures { IfOk result (λ bound.
        (s : ℕ → TermTree) (x : ℕ) → instance s (term_of pattern.now) ≡ term_of value.now →
        Occurs x (term_of pattern.now) →
        substitution_of (map term_of bound.items) x ≡ s x) }
{
    let mut bound = Vec::new(alloc);
    for variable in 0..variable_count(pattern) {
        bound.push(bind_variable(alloc, variable as u32, pattern, value)?)?;
    }
    Ok(bound)
}

// What stands in the value at the first place of a variable of the pattern, or the variable.
fn bind_variable(alloc: Global, variable: u32, pattern: &Term, value: &Term) -> Result<Term, Memory>
    ensures { IfOk result (λ t.
        (s : ℕ → TermTree) → instance s (term_of pattern.now) ≡ term_of value.now →
        Occurs variable (term_of pattern.now) →
        term_of t ≡ s variable) }
{
    match value_at(variable, pattern, value) {
        Some(found) => found.copy(alloc),
        None => Ok(Term::Var(variable)),
    }
}

// What stands in the value at the first place of a variable of the pattern.
fn value_at<'a>(variable: u32, pattern: &Term, value: &'a Term) -> Option<&'a Term>
    ensures some { IfSome result (λ t.
        (s : ℕ → TermTree) → instance s (term_of pattern.now) ≡ term_of value.now → term_of t.now ≡ s variable) }
    ensures none { IfNone result
        ((s : ℕ → TermTree) → instance s (term_of pattern.now) ≡ term_of value.now → Occurs variable (term_of pattern.now) → ⊥) }
{
    match pattern {
        Term::Var(other) => if *other == variable {
            Some(value)
        } else {
            None
        },
        Term::App(_, patterns) => match value {
            Term::Var(_) => None,
            Term::App(_, values) => {
                for (i, part) in patterns.iter().enumerate() {
                    if i < values.len() {
                        let found = value_at(variable, part, &values[i]);
                        if found.is_some() {
                            return found;
                        }
                    }
                }
                None
            }
        },
    }
}

// One more than the greatest variable of a term, or 0 where it has none.
fn variable_count(term: &Term) -> u64
    ensures above { (x : ℕ) → Occurs x (term_of term.now) → x < result }
    ensures bounded { result ≤ 2 ^ 32 }
{
    match term {
        Term::Var(variable) => *variable as u64 + 1,
        Term::App(_, args) => {
            let mut count = 0;
            for arg in args {
                let other = variable_count(arg);
                if count < other {
                    count = other;
                }
            }
            count
        }
    }
}
