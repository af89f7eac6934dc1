// Values for variables.

ghost use Rattle.std.specs.Prelude.{◌≡◌, IfOk, map};
ghost use Rattle.spec_core.specs.Numbers.{op_number};
ghost use Rattle.spec_core.specs.Terms.{term_of};
ghost use Rattle.spec_core.specs.Theories.{theory_of};
ghost use Rattle.rule_model.specs.Substitution.{with_term};
ghost use Rattle.rule_substitution.specs.Scopes.{terms_of};
ghost use Rattle.rule_origins.specs.Stacks.{from_top};
ghost use Rattle.rule_origins.specs.Values.{terms_spelled, term_spelled, with_values, assignment};

use crate::stack::{pop, put_operation};
use rule_substitution::scope::Scope;
use spec_core::equation::DataSpec;
use spec_core::items::Op;
use spec_core::memory::Memory;
use spec_core::term::Term;
use spec_core::value::Value;
use std::alloc::Global;

// The terms that a list of operations in preorder spells, the first one on top.
#[tactic(auto, using(value_terms::proofs::Stacked::next_from_back, value_terms::proofs::Stacked::all_from_back))]
fn read(alloc: Global, algebra: &DataSpec, ops: &[Op]) -> Result<Vec<Term>, Memory>
    ensures { IfOk result (λ stack. from_top stack.items ≡ terms_spelled (theory_of algebra.now) (map op_number ops.now)) }
{
    let mut stack = Vec::new(alloc);
    let count = ops.len();
    for i in 0..count {
        put_operation(alloc, algebra, &mut stack, ops[count - 1 - i])?;
    }
    Ok(stack)
}

/// The term that a value spells, or the variable where it spells none.
pub fn term_of_value(
    alloc: Global,
    algebra: &DataSpec,
    x: u32,
    value: &Value,
) -> Result<Term, Memory>
    ensures spelled { IfOk result (λ t. term_of t ≡ term_spelled (theory_of algebra.now) x value.now) }
{
    let mut stack = read(alloc, algebra, value.as_slice())?;
    match pop(&mut stack) {
        None => Ok(Term::Var(x)),
        Some(term) => Ok(term),
    }
}

// One more term for a variable.
fn one_more(alloc: Global, scope: Scope, x: u32, term: Term) -> Result<Scope, Memory>
    ensures { IfOk result (λ s. terms_of s ≡ with_term (record { number = x; sort = 0 }) (term_of term) (terms_of scope)) }
{
    let before = Box::new(alloc, scope)?;
    Ok(Scope::More(before, x, term))
}

// The terms of these values, the later ones first, over those of a scope.
fn with_values_over(
    alloc: Global,
    algebra: &DataSpec,
    values: &[(u32, Value)],
    scope: Scope,
) -> Result<Scope, Memory>
    ensures { IfOk result (λ s. terms_of s ≡ with_values (theory_of algebra.now) values.now (terms_of scope)) }
{
    match values {
        [] => Ok(scope),
        [first, rest @ ..] => {
            let (x, value) = first;
            let term = term_of_value(alloc, algebra, *x, value)?;
            let inner = one_more(alloc, scope, *x, term)?;
            with_values_over(alloc, algebra, rest, inner)
        }
    }
}

/// The terms of values for variables.
#[tactic(auto, unfolding(crate::specs::Values::assignment))]
pub fn scope(alloc: Global, algebra: &DataSpec, values: &[(u32, Value)]) -> Result<Scope, Memory>
    ensures terms { IfOk result (λ s. terms_of s ≡ assignment (theory_of algebra.now) values.now) }
{
    with_values_over(alloc, algebra, values, Scope::Empty)
}
