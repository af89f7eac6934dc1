// Open fields of actions and exits, and what bindings and calls make of the scope.

ghost use Rattle.std.specs.Prelude.{◌≡◌, List, IfOk, IfErr, IfSome, IfNone, map};
ghost use Rattle.spec_core.specs.Code.{action_field_of, exit_value_of, binding_of, variable_of};
ghost use Rattle.spec_core.specs.Executable.{IsExecutable};
ghost use Rattle.spec_core.specs.Lists.{OneOf};
ghost use Rattle.spec_core.specs.Terms.{term_of};
ghost use Rattle.symbolic_rules.specs.MarkedTerms.{MarkedAssignment};
ghost use Rattle.symbolic_rules.specs.MarkedFields.{BindingsMayHave, ArgumentsMayHave};
ghost use Rattle.symbolic_composites.specs.OpenFields.{OpenField};
ghost use Rattle.symbolic_plans.specs.Plans.{field_of};
ghost use Rattle.symbolic_reach.specs.Reached.{FieldAsks, ExitAsks, BindingAsks, ArgumentAsks};
ghost use Rattle.match_code.specs.Prepared.{program_in};
ghost use Rattle.node_values.specs.Found.{FieldsOpen, ExitOpen, field_by};
ghost use Rattle.node_values.specs.Scopes.{marks_of};
ghost use Rattle.node_values.specs.Stops.{Stops, Never};

use crate::scope::{Given, with};
use crate::stop::Stop;
use crate::value::value_of;
use match_code::Prepared;
use spec_core::code::{ActField, ExitField};
use spec_core::items::Sort;
use spec_core::term::Term;
use std::alloc::Global;
use symbolic_plans::column::{Column, in_front};

// The field of an action that a value or a mark makes.
fn column_of(given: Given) -> Column
    ensures { field_of result ≡ field_by given }
{
    match given {
        Given::Value(value) => Column::Told(value, false),
        Given::Mark(sort) => Column::Blank(sort, true),
    }
}

/// The fields of an action, where its expressions have values.
pub fn open_fields(
    alloc: Global,
    prepared: &Prepared,
    scope: &[(u32, Given)],
    fields: &[ActField],
    budget: u64,
) -> Result<Option<Vec<Column>>, Stop>
    requires executable { IsExecutable (program_in prepared.now).theory }
    ensures some { IfOk result (λ o. IfSome o (λ cs. FieldsOpen (program_in prepared.now).theory
        (marks_of (program_in prepared.now).theory scope.now) (map action_field_of fields.now) (map field_of cs.items))) }
    ensures none { IfOk result (λ o. IfNone o ((cs : List OpenField) → FieldsOpen (program_in prepared.now).theory
        (marks_of (program_in prepared.now).theory scope.now) (map action_field_of fields.now) cs → ⊥)) }
    ensures fault { IfErr result (Stops (program_in prepared.now).theory budget (λ t.
        OneOf (FieldAsks (program_in prepared.now).theory (marks_of (program_in prepared.now).theory scope.now) t)
        (map action_field_of fields.now)) Never) }
{
    match fields {
        [] => Ok(Some(Vec::new(alloc))),
        [first, rest @ ..] => match first {
            ActField::Give(term) => match value_of(alloc, prepared, scope, term, budget)? {
                None => Ok(None),
                Some(given) => match open_fields(alloc, prepared, scope, rest, budget)? {
                    None => Ok(None),
                    Some(others) => Ok(Some(in_front(column_of(given), others)?)),
                },
            },
            ActField::Take(_, sort) => match open_fields(alloc, prepared, scope, rest, budget)? {
                None => Ok(None),
                Some(others) => Ok(Some(in_front(Column::Blank(*sort, false), others)?)),
            },
        },
    }
}

/// The fields of an exit, where its expressions have values.
pub fn open_exit(
    alloc: Global,
    prepared: &Prepared,
    scope: &[(u32, Given)],
    fields: &[ExitField],
    budget: u64,
) -> Result<Option<Vec<Column>>, Stop>
    requires executable { IsExecutable (program_in prepared.now).theory }
    ensures some { IfOk result (λ o. IfSome o (λ cs. ExitOpen (program_in prepared.now).theory
        (marks_of (program_in prepared.now).theory scope.now) (map exit_value_of fields.now) (map field_of cs.items))) }
    ensures none { IfOk result (λ o. IfNone o ((cs : List OpenField) → ExitOpen (program_in prepared.now).theory
        (marks_of (program_in prepared.now).theory scope.now) (map exit_value_of fields.now) cs → ⊥)) }
    ensures fault { IfErr result (Stops (program_in prepared.now).theory budget (λ t.
        OneOf (ExitAsks (program_in prepared.now).theory (marks_of (program_in prepared.now).theory scope.now) t)
        (map exit_value_of fields.now)) Never) }
{
    match fields {
        [] => Ok(Some(Vec::new(alloc))),
        [first, rest @ ..] => match first {
            ExitField::Give(term) => match value_of(alloc, prepared, scope, term, budget)? {
                None => Ok(None),
                Some(given) => match open_exit(alloc, prepared, scope, rest, budget)? {
                    None => Ok(None),
                    Some(others) => Ok(Some(in_front(column_of(given), others)?)),
                },
            },
            ExitField::Any(sort) => match open_exit(alloc, prepared, scope, rest, budget)? {
                None => Ok(None),
                Some(others) => Ok(Some(in_front(Column::Blank(*sort, false), others)?)),
            },
        },
    }
}

/// What is known with the values of bindings, where they have values: the outer scope for their terms, and the inner one before them.
pub fn bind(
    alloc: Global,
    prepared: &Prepared,
    outer: &[(u32, Given)],
    inner: Vec<(u32, Given)>,
    bindings: &[(u32, Sort, Term)],
    budget: u64,
) -> Result<Option<Vec<(u32, Given)>>, Stop>
    requires executable { IsExecutable (program_in prepared.now).theory }
    ensures some { IfOk result (λ o. IfSome o (λ s. BindingsMayHave (program_in prepared.now).theory
        (marks_of (program_in prepared.now).theory outer.now) (marks_of (program_in prepared.now).theory inner.items)
        (map binding_of bindings.now) (marks_of (program_in prepared.now).theory s.items))) }
    ensures none { IfOk result (λ o. IfNone o ((r : MarkedAssignment) → BindingsMayHave (program_in prepared.now).theory
        (marks_of (program_in prepared.now).theory outer.now) (marks_of (program_in prepared.now).theory inner.items)
        (map binding_of bindings.now) r → ⊥)) }
    ensures fault { IfErr result (Stops (program_in prepared.now).theory budget (λ t.
        OneOf (BindingAsks (program_in prepared.now).theory (marks_of (program_in prepared.now).theory outer.now) t)
        (map binding_of bindings.now)) Never) }
{
    match bindings {
        [] => Ok(Some(inner)),
        [first, rest @ ..] => {
            let (x, _, term) = first;
            match value_of(alloc, prepared, outer, term, budget)? {
                None => Ok(None),
                Some(given) => {
                    let more = with(inner, *x, given)?;
                    bind(alloc, prepared, outer, more, rest, budget)
                }
            }
        }
    }
}

/// What is known with the values of a call's terms for the variables of its process, where they have values and are as many.
pub fn bind_arguments(
    alloc: Global,
    prepared: &Prepared,
    outer: &[(u32, Given)],
    inner: Vec<(u32, Given)>,
    vars: &[(u32, Sort)],
    terms: &[Term],
    budget: u64,
) -> Result<Option<Vec<(u32, Given)>>, Stop>
    requires executable { IsExecutable (program_in prepared.now).theory }
    ensures some { IfOk result (λ o. IfSome o (λ s. ArgumentsMayHave (program_in prepared.now).theory
        (marks_of (program_in prepared.now).theory outer.now) (marks_of (program_in prepared.now).theory inner.items)
        (map variable_of vars.now) (map term_of terms.now) (marks_of (program_in prepared.now).theory s.items))) }
    ensures none { IfOk result (λ o. IfNone o ((r : MarkedAssignment) → ArgumentsMayHave (program_in prepared.now).theory
        (marks_of (program_in prepared.now).theory outer.now) (marks_of (program_in prepared.now).theory inner.items)
        (map variable_of vars.now) (map term_of terms.now) r → ⊥)) }
    ensures fault { IfErr result (Stops (program_in prepared.now).theory budget (λ t.
        OneOf (ArgumentAsks (program_in prepared.now).theory (marks_of (program_in prepared.now).theory outer.now) t)
        (map term_of terms.now)) Never) }
{
    match vars {
        [] => match terms {
            [] => Ok(Some(inner)),
            [_, ..] => Ok(None),
        },
        [first, rest @ ..] => match terms {
            [] => Ok(None),
            [term, others @ ..] => match value_of(alloc, prepared, outer, term, budget)? {
                None => Ok(None),
                Some(given) => {
                    let (x, _) = first;
                    let more = with(inner, *x, given)?;
                    bind_arguments(alloc, prepared, outer, more, rest, others, budget)
                }
            },
        },
    }
}
