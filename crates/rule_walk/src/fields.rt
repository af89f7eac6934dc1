// Values of fields, bindings and arguments.

ghost use Rattle.std.specs.Prelude.{◌≡◌, ◌∷◌, ℕ, List, IfOk, IfErr, IfSome, IfNone, map};
ghost use Rattle.spec_core.specs.Code.{action_field_of, exit_value_of, binding_of, variable_of, program_of};
ghost use Rattle.spec_core.specs.Executable.{IsExecutable};
ghost use Rattle.spec_core.specs.Lists.{Each};
ghost use Rattle.spec_core.specs.Terms.{TermTree, term_of};
ghost use Rattle.rule_model.specs.declared.rules.Slot.TheVariants.{Of};
ghost use Rattle.rule_model.specs.Fields.{Spells, FieldsHave, ExitHas, BindingsHave, ArgumentsHave, IsHandedOn};
ghost use Rattle.rule_substitution.specs.Scopes.{terms_of};
ghost use Rattle.match_code.specs.Prepared.{program_in};
ghost use Rattle.rule_laws.specs.Spelled.{SpellsSome};
ghost use Rattle.rule_walk.specs.Asking.{SpellsCall, ChoiceAsks, FieldsAsk, ExitAsks, BindingsAsk, ArgumentsAsk};
ghost use Rattle.rule_walk.specs.Bounds.{BoundsEach};
ghost use Rattle.rule_walk.specs.Faults.{Explains, Here, IsMisfit, HasNoFields, HasNoExit, HasNoBindings, HasNoArguments};
ghost use Rattle.rule_walk.specs.Faults.{HandsOnNothing};
ghost use Rattle.value_terms.specs.Spelled.{SpellsTerm};

use crate::fault::{FireFault, unfit};
use crate::judge::{is_value, operations_of, value_of};
use match_code::{Eval, Prepared};
use rule_model::rules::Slot;
use rule_substitution::scope::Scope;
use spec_core::code::{ActField, Checked, ExitField};
use spec_core::items::Sort;
use spec_core::memory::Memory;
use spec_core::term::Term;
use spec_core::value::Value;
use std::alloc::Global;
use value_terms::term_of_sort;

/// A chosen value: as the list of its operations, and as the term that they spell.
#[derive(Drop)]
pub struct Chosen {
    pub ops: Value,
    pub term: Term,
}

/// The values of an action's fields, and the terms for the variables then.
#[derive(Drop)]
pub struct Filled {
    pub values: Vec<Value>,
    pub scope: Scope,
}

// One more value in front.
fn in_front(value: Value, filled: Filled) -> Result<Filled, Memory>
    ensures values { IfOk result (λ f. f.values.items ≡ value ∷ filled.values.items) }
    ensures scope { IfOk result (λ f. f.scope ≡ filled.scope) }
{
    let Filled { values, scope } = filled;
    let values = before(value, values)?;
    Ok(Filled { values, scope })
}

// One more value in front.
fn before(value: Value, values: Vec<Value>) -> Result<Vec<Value>, Memory>
    ensures values { IfOk result (λ all. all.items ≡ value ∷ values.items) }
{
    let mut all = values;
    match all.insert(0, value) {
        Ok(()) => Ok(all),
        Err(_) => Err(Memory),
    }
}

/// The value that a tree chooses, where it is one of the sort. A term that isn't a ground constructor term is evaluated, with at most `budget`
/// uses of equations, to see whether it is a value.
pub fn choose(
    alloc: Global,
    prepared: &Prepared,
    slot: &Slot,
    sort: Sort,
    budget: u64,
) -> Result<Chosen, FireFault>
    requires executable { IsExecutable (program_in prepared.now).theory }
    ensures here { IfOk result (λ c. slot.now ≡ Of c.ops) }
    ensures spelled { IfOk result (λ c. Spells (program_in prepared.now).theory c.ops (term_of c.term) sort.0) }
    ensures fault { IfErr result
        (Explains (program_in prepared.now).theory budget
        (Here ((w : List ℕ) (n : TermTree) → slot.now ≡ Of w → Spells (program_in prepared.now).theory w n sort.0 → ⊥))
        (ChoiceAsks (program_in prepared.now).theory sort.0 slot.now)) }
    ensures within { BoundsEach (program_in prepared.now).theory budget
        (ChoiceAsks (program_in prepared.now).theory sort.0 slot.now) result }
{
    match slot {
        Slot::Of(value) => choose_value(alloc, prepared, value, sort, budget),
        Slot::Mark => Err(unfit(alloc)),
        Slot::Blank => Err(unfit(alloc)),
    }
}

// The same of a list of operations.
fn choose_value(
    alloc: Global,
    prepared: &Prepared,
    value: &Value,
    sort: Sort,
    budget: u64,
) -> Result<Chosen, FireFault>
    requires executable { IsExecutable (program_in prepared.now).theory }
    ensures here { IfOk result (λ c. value.now ≡ c.ops) }
    ensures spelled { IfOk result (λ c. Spells (program_in prepared.now).theory c.ops (term_of c.term) sort.0) }
    ensures fault { IfErr result
        (Explains (program_in prepared.now).theory budget
        (Here ((n : TermTree) → Spells (program_in prepared.now).theory value.now n sort.0 → ⊥))
        (λ x. SpellsCall (program_in prepared.now).theory value.now x sort.0)) }
    ensures within { BoundsEach (program_in prepared.now).theory budget
        (λ x. SpellsCall (program_in prepared.now).theory value.now x sort.0) result }
{
    match term_of_sort(alloc, &prepared.checked.algebra, value, sort)? {
        None => Err(unfit(alloc)),
        Some(term) => {
            let term = as_value(alloc, prepared, value, term, sort, budget)?;
            let ops = value.copy(alloc)?;
            Ok(Chosen { ops, term })
        }
    }
}

// The term of the sort that a list of operations spells, where it is a value.
fn as_value(
    alloc: Global,
    prepared: &Prepared,
    value: &Value,
    term: Term,
    sort: Sort,
    budget: u64,
) -> Result<Term, FireFault>
    requires executable { IsExecutable (program_in prepared.now).theory }
    requires spells { SpellsTerm (program_in prepared.now).theory value.now (term_of term) sort.0 }
    ensures spelled { IfOk result (λ n. Spells (program_in prepared.now).theory value.now (term_of n) sort.0) }
    ensures fault { IfErr result
        (Explains (program_in prepared.now).theory budget
        (Here ((n : TermTree) → Spells (program_in prepared.now).theory value.now n sort.0 → ⊥))
        (λ x. SpellsCall (program_in prepared.now).theory value.now x sort.0)) }
    ensures within { BoundsEach (program_in prepared.now).theory budget
        (λ x. SpellsCall (program_in prepared.now).theory value.now x sort.0) result }
{
    match is_value(alloc, prepared, value, &term, budget) {
        Ok(true) => Ok(term),
        Ok(false) => Err(unfit(alloc)),
        Err(Eval::Spent) => Err(FireFault::Spent { term }),
        Err(Eval::TooLarge) => Err(FireFault::TooLarge { term }),
        Err(Eval::Memory) => Err(FireFault::Memory),
    }
}

/// The values of an action's fields, and the terms for the variables with those of its binders: the outer terms for the expressions, the
/// inner ones for the fields before.
pub fn fill(
    alloc: Global,
    prepared: &Prepared,
    outer: &Scope,
    inner: &Scope,
    fields: &[ActField],
    slots: &[Slot],
    budget: u64,
) -> Result<Filled, FireFault>
    requires executable { IsExecutable (program_in prepared.now).theory }
    ensures filled { IfOk result (λ f.
        FieldsHave (program_in prepared.now).theory (terms_of outer.now) (terms_of inner.now) (map action_field_of fields.now) slots.now
        f.values.items (terms_of f.scope)) }
    ensures fault { IfErr result
        (Explains (program_in prepared.now).theory budget
        (Here (HasNoFields (program_in prepared.now).theory (terms_of outer.now) (terms_of inner.now) (map action_field_of fields.now)
        slots.now))
        (FieldsAsk (program_in prepared.now).theory (terms_of outer.now) (map action_field_of fields.now) slots.now)) }
    ensures within { BoundsEach (program_in prepared.now).theory budget
        (FieldsAsk (program_in prepared.now).theory (terms_of outer.now) (map action_field_of fields.now) slots.now) result }
{
    match fields {
        [] => match slots {
            [] => Ok(Filled {
                values: Vec::new(alloc),
                scope: inner.copy(alloc)?,
            }),
            [_, ..] => Err(unfit(alloc)),
        },
        [first, rest @ ..] => match first {
            ActField::Give(term) => {
                let value = operations_of(alloc, prepared, outer, term, budget)?;
                let others = fill(alloc, prepared, outer, inner, rest, slots, budget)?;
                Ok(in_front(value, others)?)
            }
            ActField::Take(x, sort) => match slots {
                [] => Err(unfit(alloc)),
                [slot, left @ ..] => {
                    let found = choose(alloc, prepared, slot, *sort, budget)?;
                    let more = inner.with(alloc, *x, *sort, &found.term)?;
                    let others = fill(alloc, prepared, outer, &more, rest, left, budget)?;
                    Ok(in_front(found.ops, others)?)
                }
            },
        },
    }
}

/// The values of an exit's fields.
pub fn fill_exit(
    alloc: Global,
    prepared: &Prepared,
    scope: &Scope,
    fields: &[ExitField],
    slots: &[Slot],
    budget: u64,
) -> Result<Vec<Value>, FireFault>
    requires executable { IsExecutable (program_in prepared.now).theory }
    ensures filled { IfOk result (λ values.
        ExitHas (program_in prepared.now).theory (terms_of scope.now) (map exit_value_of fields.now) slots.now values.items) }
    ensures fault { IfErr result
        (Explains (program_in prepared.now).theory budget
        (Here (HasNoExit (program_in prepared.now).theory (terms_of scope.now) (map exit_value_of fields.now) slots.now))
        (ExitAsks (program_in prepared.now).theory (terms_of scope.now) (map exit_value_of fields.now) slots.now)) }
    ensures within { BoundsEach (program_in prepared.now).theory budget
        (ExitAsks (program_in prepared.now).theory (terms_of scope.now) (map exit_value_of fields.now) slots.now) result }
{
    match fields {
        [] => match slots {
            [] => Ok(Vec::new(alloc)),
            [_, ..] => Err(unfit(alloc)),
        },
        [first, rest @ ..] => match first {
            ExitField::Give(term) => {
                let value = operations_of(alloc, prepared, scope, term, budget)?;
                let others = fill_exit(alloc, prepared, scope, rest, slots, budget)?;
                Ok(before(value, others)?)
            }
            ExitField::Any(sort) => match slots {
                [] => Err(unfit(alloc)),
                [slot, left @ ..] => {
                    let found = choose(alloc, prepared, slot, *sort, budget)?;
                    let others = fill_exit(alloc, prepared, scope, rest, left, budget)?;
                    Ok(before(found.ops, others)?)
                }
            },
        },
    }
}

/// The terms for the variables, with the values that a `let` binds: the outer ones for its terms, the inner ones for the bindings before.
pub fn bind(
    alloc: Global,
    prepared: &Prepared,
    outer: &Scope,
    inner: &Scope,
    bindings: &[(u32, Sort, Term)],
    budget: u64,
) -> Result<Scope, FireFault>
    requires executable { IsExecutable (program_in prepared.now).theory }
    ensures bound { IfOk result (λ s.
        BindingsHave (program_in prepared.now).theory (terms_of outer.now) (terms_of inner.now) (map binding_of bindings.now)
        (terms_of s)) }
    ensures fault { IfErr result
        (Explains (program_in prepared.now).theory budget
        (Here (HasNoBindings (program_in prepared.now).theory (terms_of outer.now) (terms_of inner.now) (map binding_of bindings.now)))
        (BindingsAsk (program_in prepared.now).theory (terms_of outer.now) (map binding_of bindings.now))) }
    ensures within { BoundsEach (program_in prepared.now).theory budget
        (BindingsAsk (program_in prepared.now).theory (terms_of outer.now) (map binding_of bindings.now)) result }
{
    match bindings {
        [] => Ok(inner.copy(alloc)?),
        [first, rest @ ..] => {
            let (x, sort, term) = first;
            let value = value_of(alloc, prepared, outer, term, budget)?;
            let more = inner.with(alloc, *x, *sort, &value)?;
            bind(alloc, prepared, outer, &more, rest, budget)
        }
    }
}

/// The terms for the variables of a process, with the values of a call's terms.
pub fn bind_arguments(
    alloc: Global,
    prepared: &Prepared,
    outer: &Scope,
    inner: &Scope,
    vars: &[(u32, Sort)],
    terms: &[Term],
    budget: u64,
) -> Result<Scope, FireFault>
    requires executable { IsExecutable (program_in prepared.now).theory }
    ensures bound { IfOk result (λ s.
        ArgumentsHave (program_in prepared.now).theory (terms_of outer.now) (terms_of inner.now) (map variable_of vars.now)
        (map term_of terms.now) (terms_of s)) }
    ensures fault { IfErr result
        (Explains (program_in prepared.now).theory budget
        (Here (HasNoArguments (program_in prepared.now).theory (terms_of outer.now) (terms_of inner.now) (map variable_of vars.now)
        (map term_of terms.now)))
        (ArgumentsAsk (program_in prepared.now).theory (terms_of outer.now) (map variable_of vars.now) (map term_of terms.now))) }
    ensures within { BoundsEach (program_in prepared.now).theory budget
        (ArgumentsAsk (program_in prepared.now).theory (terms_of outer.now) (map variable_of vars.now) (map term_of terms.now)) result }
{
    match vars {
        [] => match terms {
            [] => Ok(inner.copy(alloc)?),
            [_, ..] => Err(unfit(alloc)),
        },
        [first, rest @ ..] => match terms {
            [] => Err(unfit(alloc)),
            [term, others @ ..] => {
                let (x, sort) = *first;
                let value = value_of(alloc, prepared, outer, term, budget)?;
                let more = inner.with(alloc, x, sort, &value)?;
                bind_arguments(alloc, prepared, outer, &more, rest, others, budget)
            }
        },
    }
}

// The term of the sort that one of an exit's values spells.
fn given_term(
    alloc: Global,
    checked: &Checked,
    value: &Value,
    sort: Sort,
) -> Result<Option<Term>, Memory>
    requires given { SpellsSome (program_of checked.now).theory value.now }
    ensures some { IfOk result (λ o. IfSome o (λ term. Spells (program_of checked.now).theory value.now (term_of term) sort.0)) }
    ensures none { IfOk result (λ o. IfNone o ((n : TermTree) → Spells (program_of checked.now).theory value.now n sort.0 → ⊥)) }
{
    term_of_sort(alloc, &checked.algebra, value, sort)
}

/// The terms for the variables, with the values of an exit that was done for those of `accept`.
pub fn hand_on(
    alloc: Global,
    checked: &Checked,
    inner: &Scope,
    vars: &[(u32, Sort)],
    values: &[Value],
) -> Result<Scope, FireFault>
    requires executable { IsExecutable (program_of checked.now).theory }
    requires given { Each (SpellsSome (program_of checked.now).theory) values.now }
    ensures handed_on { IfOk result (λ s.
        IsHandedOn (program_of checked.now).theory (terms_of inner.now) (map variable_of vars.now) values.now (terms_of s)) }
    ensures misfit { IfErr result
        (IsMisfit (HandsOnNothing (program_of checked.now).theory (terms_of inner.now) (map variable_of vars.now) values.now)) }
{
    match vars {
        [] => match values {
            [] => Ok(inner.copy(alloc)?),
            [_, ..] => Err(unfit(alloc)),
        },
        [first, rest @ ..] => match values {
            [] => Err(unfit(alloc)),
            [value, others @ ..] => {
                let (x, sort) = *first;
                match given_term(alloc, checked, value, sort)? {
                    None => Err(unfit(alloc)),
                    Some(term) => {
                        let more = inner.with(alloc, x, sort, &term)?;
                        hand_on(alloc, checked, &more, rest, others)
                    }
                }
            }
        },
    }
}
