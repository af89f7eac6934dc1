// Values of expressions, and whether predicates hold.

ghost use Rattle.std.specs.Prelude.{◌≡◌, ◌⊎◌, ◌↔◌, IfOk, IfErr, IfSome, IfNone, OnOk, IsTrue, map};
ghost use Rattle.spec_core.specs.Budgets.{IsBeyond};
ghost use Rattle.spec_core.specs.Code.{guard_of, program_of};
ghost use Rattle.spec_core.specs.Constructors.{IsConstructed};
ghost use Rattle.spec_core.specs.Executable.{IsExecutable};
ghost use Rattle.spec_core.specs.Sorts.{FitsGround, HasSort, no_variables};
ghost use Rattle.spec_core.specs.Terms.{TermTree, instance, term_of, preorder};
ghost use Rattle.spec_core.specs.Theories.{premise};
ghost use Rattle.spec_core.specs.Values.{IsValue, HasValue};
ghost use Rattle.rewriter.specs.Answers.{IsWithin, MeetsTooLarge, SpellsValue};
ghost use Rattle.rule_model.specs.Fields.{GivesValue, GuardHolds, PremiseHolds};
ghost use Rattle.rule_substitution.specs.Scopes.{terms_of};
ghost use Rattle.match_code.specs.Prepared.{program_in};
ghost use Rattle.rule_walk.specs.Asking.{GuardAsks, PremiseAsks};
ghost use Rattle.rule_walk.specs.Bounds.{BoundsEach};
ghost use Rattle.rule_walk.specs.Faults.{Explains, HasNoValue, Here};

use crate::fault::{FireFault, unfit};
use match_code::{Eval, Prepared};
use rule_substitution::scope::Scope;
use spec_core::code::Checked;
use spec_core::items::Sort;
use spec_core::memory::Memory;
use spec_core::term::Term;
use spec_core::value::Value;
use std::alloc::Global;
use value_terms::{are_constructors, sort_of_ground, term_of_sort};

// A ground term and its sort.
#[derive(Drop)]
struct Ground {
    term: Term,
    sort: Sort,
}

// An expression with the scope's terms in the places of its variables, where it is ground then.
fn closed(
    alloc: Global,
    checked: &Checked,
    scope: &Scope,
    term: &Term,
) -> Result<Option<Ground>, Memory>
    ensures instance { IfOk result (λ o. IfSome o (λ g. term_of g.term ≡ instance (terms_of scope.now) (term_of term.now))) }
    ensures fits { IfOk result (λ o. IfSome o (λ g. HasSort (program_of checked.now).theory no_variables (term_of g.term) g.sort.0)) }
    ensures none { IfOk result (λ o. IfNone o
        (FitsGround (program_of checked.now).theory (instance (terms_of scope.now) (term_of term.now)) → ⊥)) }
{
    let term = scope.put_in_term(alloc, term)?;
    match sort_of_ground(&checked.algebra, &term) {
        None => Ok(None),
        Some(sort) => Ok(Some(Ground { term, sort })),
    }
}

// The operations of a ground term's value.
fn evaluate(
    alloc: Global,
    prepared: &Prepared,
    ground: Ground,
    budget: u64,
) -> Result<Value, FireFault>
    requires executable { IsExecutable (program_in prepared.now).theory }
    requires fits { HasSort (program_in prepared.now).theory no_variables (term_of ground.term) ground.sort.0 }
    ensures value { IfOk result (SpellsValue (program_in prepared.now).theory (term_of ground.term) budget) }
    ensures fault { IfErr result
        (Explains (program_in prepared.now).theory budget (Here ⊥) (λ x. x ≡ term_of ground.term)) }
{
    match prepared.value(alloc, &ground.term, budget) {
        Ok(value) => Ok(value),
        Err(Eval::Spent) => Err(FireFault::Spent { term: ground.term }),
        Err(Eval::TooLarge) => Err(FireFault::TooLarge { term: ground.term }),
        Err(Eval::Memory) => Err(FireFault::Memory),
    }
}

/// The operations of an expression's value, with the scope's terms in the places of its variables.
pub fn operations_of(
    alloc: Global,
    prepared: &Prepared,
    scope: &Scope,
    term: &Term,
    budget: u64,
) -> Result<Value, FireFault>
    requires executable { IsExecutable (program_in prepared.now).theory }
    ensures value { IfOk result (λ v. (n : TermTree) ×
        GivesValue (program_in prepared.now).theory (instance (terms_of scope.now) (term_of term.now)) v n) }
    ensures fault { IfErr result
        (Explains (program_in prepared.now).theory budget
        (Here (HasNoValue (program_in prepared.now).theory (instance (terms_of scope.now) (term_of term.now))))
        (λ x. x ≡ instance (terms_of scope.now) (term_of term.now))) }
    ensures within { BoundsEach (program_in prepared.now).theory budget (λ x. x ≡ instance (terms_of scope.now) (term_of term.now)) result }
{
    match closed(alloc, prepared.checked, scope, term)? {
        None => Err(unfit(alloc)),
        Some(ground) => evaluate(alloc, prepared, ground, budget),
    }
}

/// An expression's value, with the scope's terms in the places of its variables.
pub fn value_of(
    alloc: Global,
    prepared: &Prepared,
    scope: &Scope,
    term: &Term,
    budget: u64,
) -> Result<Term, FireFault>
    requires executable { IsExecutable (program_in prepared.now).theory }
    ensures value { IfOk result (λ n.
        HasValue (program_in prepared.now).theory (instance (terms_of scope.now) (term_of term.now)) (term_of n)) }
    ensures fault { IfErr result
        (Explains (program_in prepared.now).theory budget
        (Here (HasNoValue (program_in prepared.now).theory (instance (terms_of scope.now) (term_of term.now))))
        (λ x. x ≡ instance (terms_of scope.now) (term_of term.now))) }
    ensures within { BoundsEach (program_in prepared.now).theory budget (λ x. x ≡ instance (terms_of scope.now) (term_of term.now)) result }
{
    match closed(alloc, prepared.checked, scope, term)? {
        None => Err(unfit(alloc)),
        Some(ground) => spelled_value(alloc, prepared, ground, budget),
    }
}

// A ground term's value.
fn spelled_value(
    alloc: Global,
    prepared: &Prepared,
    ground: Ground,
    budget: u64,
) -> Result<Term, FireFault>
    requires executable { IsExecutable (program_in prepared.now).theory }
    requires fits { HasSort (program_in prepared.now).theory no_variables (term_of ground.term) ground.sort.0 }
    ensures value { IfOk result (λ n. HasValue (program_in prepared.now).theory (term_of ground.term) (term_of n)) }
    ensures within { OnOk result (IsWithin (program_in prepared.now).theory (term_of ground.term) budget) }
    ensures fault { IfErr result
        (Explains (program_in prepared.now).theory budget (Here ⊥) (λ x. x ≡ term_of ground.term)) }
{
    let sort = ground.sort;
    let value = evaluate(alloc, prepared, ground, budget)?;
    match term_of_sort(alloc, &prepared.checked.algebra, &value, sort)? {
        None => unreachable!(),
        Some(term) => Ok(term),
    }
}

/// Whether the ground term that a list of operations spells is a value. A ground constructor term is one; any other is evaluated, with at
/// most `budget` uses of equations, and compared with its value. `Spent` and `TooLarge` speak of that evaluation.
pub fn is_value(
    alloc: Global,
    prepared: &Prepared,
    value: &Value,
    term: &Term,
    budget: u64,
) -> Result<bool, Eval>
    requires executable { IsExecutable (program_in prepared.now).theory }
    requires fits { FitsGround (program_in prepared.now).theory (term_of term.now) }
    requires spelled { value.now ≡ preorder (term_of term.now) }
    ensures decides { IfOk result (λ yes. IsTrue yes ↔ IsValue (program_in prepared.now).theory (term_of term.now)) }
    ensures within { OnOk result ((IsConstructed (program_in prepared.now).theory (term_of term.now) → ⊥) →
        IsWithin (program_in prepared.now).theory (term_of term.now) budget) }
    ensures evaluated { IfErr result (λ e.
        e ≡ Eval.Memory ⊎ (IsConstructed (program_in prepared.now).theory (term_of term.now) → ⊥)) }
    ensures spent { IfErr result (λ e. e ≡ Eval.Spent → IsBeyond (program_in prepared.now).theory (term_of term.now) budget) }
    ensures too_large { IfErr result (λ e. e ≡ Eval.TooLarge → MeetsTooLarge (program_in prepared.now).theory (term_of term.now)) }
{
    if are_constructors(&prepared.checked.algebra, value.as_slice()) {
        return Ok(true);
    }
    let own = prepared.value(alloc, term, budget)?;
    Ok(own.same(value))
}

/// Goes on where the two sides of a premise are equal, with the scope's terms in the places of their variables.
pub fn ask_premise(
    alloc: Global,
    prepared: &Prepared,
    scope: &Scope,
    left: &Term,
    right: &Term,
    budget: u64,
) -> Result<(), FireFault>
    requires executable { IsExecutable (program_in prepared.now).theory }
    ensures holds { OnOk result
        (PremiseHolds (program_in prepared.now).theory (terms_of scope.now) (premise (term_of left.now) (term_of right.now))) }
    ensures fault { IfErr result
        (Explains (program_in prepared.now).theory budget
        (Here (PremiseHolds (program_in prepared.now).theory (terms_of scope.now) (premise (term_of left.now) (term_of right.now)) → ⊥))
        (PremiseAsks (program_in prepared.now).theory (terms_of scope.now) (premise (term_of left.now) (term_of right.now)))) }
    ensures within { BoundsEach (program_in prepared.now).theory budget
        (PremiseAsks (program_in prepared.now).theory (terms_of scope.now) (premise (term_of left.now) (term_of right.now))) result }
{
    let first = operations_of(alloc, prepared, scope, left, budget)?;
    let second = operations_of(alloc, prepared, scope, right, budget)?;
    if first.same(&second) {
        Ok(())
    } else {
        Err(unfit(alloc))
    }
}

/// Goes on where the predicate of an action holds, if it has one.
pub fn ask_guard(
    alloc: Global,
    prepared: &Prepared,
    scope: &Scope,
    guard: &Option<(Term, Term)>,
    budget: u64,
) -> Result<(), FireFault>
    requires executable { IsExecutable (program_in prepared.now).theory }
    ensures holds { OnOk result (GuardHolds (program_in prepared.now).theory (terms_of scope.now) (guard_of guard.now)) }
    ensures fault { IfErr result
        (Explains (program_in prepared.now).theory budget
        (Here (GuardHolds (program_in prepared.now).theory (terms_of scope.now) (guard_of guard.now) → ⊥))
        (GuardAsks (program_in prepared.now).theory (terms_of scope.now) (guard_of guard.now))) }
    ensures within { BoundsEach (program_in prepared.now).theory budget
        (GuardAsks (program_in prepared.now).theory (terms_of scope.now) (guard_of guard.now)) result }
{
    match guard {
        None => Ok(()),
        Some((left, right)) => ask_premise(alloc, prepared, scope, left, right, budget),
    }
}
