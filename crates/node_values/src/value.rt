// Values of expressions, and whether premises may hold.

ghost use Rattle.std.specs.Prelude.{◌≡◌, ◌↔◌, ◌⊎◌, IfOk, IfErr, IfSome, IfNone, IsTrue, true, false};
ghost use Rattle.spec_core.specs.Code.{program_of};
ghost use Rattle.spec_core.specs.Equality.{Equal};
ghost use Rattle.spec_core.specs.Executable.{IsExecutable};
ghost use Rattle.spec_core.specs.Sorts.{FitsGround};
ghost use Rattle.spec_core.specs.Terms.{TermTree, term_of};
ghost use Rattle.spec_core.specs.Theories.{premise};
ghost use Rattle.spec_core.specs.Values.{HasValue};
ghost use Rattle.rewriter.specs.Answers.{SpellsValue};
ghost use Rattle.symbolic_rules.specs.MarkedTerms.{marked_instance, PremiseMayHold};
ghost use Rattle.symbolic_reach.specs.Reached.{Asks, PremiseAsks};
ghost use Rattle.match_code.specs.Prepared.{program_in};
ghost use Rattle.node_values.specs.Found.{IsValueOf, HasNone, Spelled};
ghost use Rattle.node_values.specs.Scopes.{marks_of};
ghost use Rattle.node_values.specs.Stops.{Stops, Never};

use crate::scope::{Given, Instance, put_in};
use crate::stop::Stop;
use match_code::{Eval, Prepared};
use spec_core::code::Checked;
use spec_core::term::Term;
use spec_core::value::Value;
use std::alloc::Global;
use value_terms::sort_of_ground;

// The operations of a ground term's value.
fn evaluate(alloc: Global, prepared: &Prepared, term: Term, budget: u64) -> Result<Value, Stop>
    requires executable { IsExecutable (program_in prepared.now).theory }
    requires fits { FitsGround (program_in prepared.now).theory (term_of term) }
    ensures value { IfOk result (SpellsValue (program_in prepared.now).theory (term_of term) budget) }
    ensures fault { IfErr result (Stops (program_in prepared.now).theory budget (λ x. x ≡ term_of term) Never) }
{
    match prepared.value(alloc, &term, budget) {
        Ok(value) => Ok(value),
        Err(Eval::Spent) => Err(Stop::Spent(term)),
        Err(Eval::TooLarge) => Err(Stop::TooLarge(term)),
        Err(Eval::Memory) => Err(Stop::Memory),
    }
}

// Whether a term is ground, over the signature.
fn is_ground(checked: &Checked, term: &Term) -> bool
    ensures yes { result ≡ true → FitsGround (program_of checked.now).theory (term_of term.now) }
    ensures no { result ≡ false → FitsGround (program_of checked.now).theory (term_of term.now) → ⊥ }
{
    match sort_of_ground(&checked.algebra, term) {
        None => false,
        Some(_) => true,
    }
}

/// The operations of a term's value, if it has one.
pub fn operations_of(
    alloc: Global,
    prepared: &Prepared,
    term: Term,
    budget: u64,
) -> Result<Option<Value>, Stop>
    requires executable { IsExecutable (program_in prepared.now).theory }
    ensures some { IfOk result (λ o. IfSome o (λ v. Spelled (program_in prepared.now).theory (term_of term) v)) }
    ensures none { IfOk result (λ o. IfNone o ((n : TermTree) → HasValue (program_in prepared.now).theory (term_of term) n → ⊥)) }
    ensures fault { IfErr result (Stops (program_in prepared.now).theory budget (λ x. x ≡ term_of term) Never) }
{
    if is_ground(prepared.checked, &term) {
        Ok(Some(evaluate(alloc, prepared, term, budget)?))
    } else {
        Ok(None)
    }
}

/// The value of an expression, or its mark, with what is known for its variables.
pub fn value_of(
    alloc: Global,
    prepared: &Prepared,
    scope: &[(u32, Given)],
    term: &Term,
    budget: u64,
) -> Result<Option<Given>, Stop>
    requires executable { IsExecutable (program_in prepared.now).theory }
    ensures some { IfOk result (λ o. IfSome o (IsValueOf (program_in prepared.now).theory
        (marked_instance (program_in prepared.now).theory (marks_of (program_in prepared.now).theory scope.now) (term_of term.now)))) }
    ensures none { IfOk result (λ o. IfNone o (HasNone (program_in prepared.now).theory
        (marked_instance (program_in prepared.now).theory (marks_of (program_in prepared.now).theory scope.now) (term_of term.now)))) }
    ensures fault { IfErr result (Stops (program_in prepared.now).theory budget
        (Asks (program_in prepared.now).theory (marks_of (program_in prepared.now).theory scope.now) (term_of term.now)) Never) }
{
    match put_in(alloc, &prepared.checked.algebra, scope, term)? {
        Instance::Marked(sort) => Ok(Some(Given::Mark(sort))),
        Instance::Plain(ground) => match operations_of(alloc, prepared, ground, budget)? {
            None => Ok(None),
            Some(value) => Ok(Some(Given::Value(value))),
        },
    }
}

// Whether two terms are equal.
fn are_equal(
    alloc: Global,
    prepared: &Prepared,
    left: Term,
    right: Term,
    budget: u64,
) -> Result<bool, Stop>
    requires executable { IsExecutable (program_in prepared.now).theory }
    ensures decides { IfOk result (λ b. IsTrue b ↔ Equal (program_in prepared.now).theory (term_of left) (term_of right)) }
    ensures fault { IfErr result (Stops (program_in prepared.now).theory budget
        (λ x. (x ≡ term_of left) ⊎ (x ≡ term_of right)) Never) }
{
    match operations_of(alloc, prepared, left, budget)? {
        None => Ok(false),
        Some(first) => match operations_of(alloc, prepared, right, budget)? {
            None => Ok(false),
            Some(second) => Ok(first.same(&second)),
        },
    }
}

/// Whether the two sides of a premise are equal, with what is known for their variables, or one of them holds a mark.
pub fn may_hold(
    alloc: Global,
    prepared: &Prepared,
    scope: &[(u32, Given)],
    left: &Term,
    right: &Term,
    budget: u64,
) -> Result<bool, Stop>
    requires executable { IsExecutable (program_in prepared.now).theory }
    ensures decides { IfOk result (λ b. IsTrue b ↔ PremiseMayHold (program_in prepared.now).theory
        (marks_of (program_in prepared.now).theory scope.now) (premise (term_of left.now) (term_of right.now))) }
    ensures fault { IfErr result (Stops (program_in prepared.now).theory budget
        (PremiseAsks (program_in prepared.now).theory (marks_of (program_in prepared.now).theory scope.now)
        (premise (term_of left.now) (term_of right.now))) Never) }
{
    match put_in(alloc, &prepared.checked.algebra, scope, left)? {
        Instance::Marked(_) => Ok(true),
        Instance::Plain(first) => match put_in(alloc, &prepared.checked.algebra, scope, right)? {
            Instance::Marked(_) => Ok(true),
            Instance::Plain(second) => are_equal(alloc, prepared, first, second, budget),
        },
    }
}
