// What slots choose, and the fields of actions and exits.

ghost use Rattle.std.specs.Prelude.{◌≡◌, ◌∷◌, ◌↔◌, List, IfOk, IfErr, IfSome, IfNone, IsTrue, map};
ghost use Rattle.spec_core.specs.Code.{action_field_of, exit_value_of, guard_of, program_of};
ghost use Rattle.spec_core.specs.Lists.{Each, OneOf};
ghost use Rattle.spec_core.specs.Ready.{IsReady};
ghost use Rattle.spec_core.specs.Theories.{theory_of};
ghost use Rattle.rule_model.specs.declared.rules.Slot.TheVariants.{Of, Mark};
ghost use Rattle.symbolic_rules.specs.MarkedTerms.{MarkedAssignment, GuardMayHold};
ghost use Rattle.symbolic_rules.specs.MarkedFields.{MarkedField, FieldsMayHave, ExitMayHave};
ghost use Rattle.node_values.specs.Reached.{FieldAsks, ExitAsks, GuardAsks};
ghost use Rattle.node_values.specs.Scopes.{marks_of};
ghost use Rattle.node_values.specs.Stops.{Stops, Never};
ghost use Rattle.symbolic_rules.specs.Tables.{windows_in};
ghost use Rattle.symbolic_actions.specs.Deciding as tests;
ghost use Rattle.symbolic_actions.specs.Models.{marked_field_of};
ghost use Rattle.node_values.specs.Prepared.{program_in};
ghost use Rattle.node_verdict.specs.Choosing.{ChoosesValue};
ghost use Rattle.node_verdict.specs.Found.{IsChosen, ChoosesNothing, told_field, chosen_field};

use node_values::Prepared;
use node_values::scope::{Given, with};
use node_values::stop::Stop;
use node_values::value::{may_hold, value_of};
use rule_model::rules::Slot;
use spec_core::code::{ActField, Checked, ExitField};
use spec_core::equation::DataSpec;
use spec_core::items::Sort;
use spec_core::memory::Memory;
use spec_core::term::Term;
use spec_core::value::Value;
use spec_core::window::Window;
use std::alloc::Global;
use symbolic_actions::field::ShownField;
use symbolic_actions::meeting::is_in_window;
use symbolic_rules::is_complete;
use value_terms::term_of_sort;

// A value, if it is one of the sort.
#[tactic(auto, using(crate::proofs::Filling::value_chosen, crate::proofs::Filling::none_chosen))]
fn value_chosen(
    alloc: Global,
    checked: &Checked,
    windows: &[Window],
    value: &Value,
    sort: Sort,
) -> Result<Option<Given>, Memory>
    requires value { ChoosesValue (program_of checked.now).theory (Of value.now) }
    ensures some { IfOk result (λ o. IfSome o
        (IsChosen (program_of checked.now).theory (windows_in windows.now) (Of value.now) sort.0)) }
    ensures none { IfOk result (λ o. IfNone o
        (ChoosesNothing (program_of checked.now).theory (windows_in windows.now) (Of value.now) sort.0)) }
{
    match term_of_sort(alloc, &checked.algebra, value, sort)? {
        None => Ok(None),
        Some(_) => Ok(Some(Given::Value(value.copy(alloc)?))),
    }
}

// The mark of a sort, where its window isn't complete.
fn mark_chosen(checked: &Checked, windows: &[Window], sort: Sort) -> Option<Given>
    ensures some { IfSome result (IsChosen (program_of checked.now).theory (windows_in windows.now) Mark sort.0) }
    ensures none { IfNone result (ChoosesNothing (program_of checked.now).theory (windows_in windows.now) Mark sort.0) }
{
    if is_complete(windows, sort) {
        None
    } else {
        Some(Given::Mark(sort))
    }
}

/// What a slot chooses for a sort: a value of the sort, or the mark, where its window isn't complete.
pub fn chosen(
    alloc: Global,
    checked: &Checked,
    windows: &[Window],
    slot: &Slot,
    sort: Sort,
) -> Result<Option<Given>, Memory>
    requires value { ChoosesValue (program_of checked.now).theory slot.now }
    ensures some { IfOk result (λ o. IfSome o
        (IsChosen (program_of checked.now).theory (windows_in windows.now) slot.now sort.0)) }
    ensures none { IfOk result (λ o. IfNone o
        (ChoosesNothing (program_of checked.now).theory (windows_in windows.now) slot.now sort.0)) }
{
    match slot {
        Slot::Of(value) => value_chosen(alloc, checked, windows, value, sort),
        Slot::Mark => Ok(mark_chosen(checked, windows, sort)),
        Slot::Blank => Ok(None),
    }
}

/// Whether what is only chosen lies in the window of its sort. It takes no memory.
pub fn lies_within(algebra: &DataSpec, windows: &[Window], given: &Given) -> bool
    ensures within { result ≡ tests.is_within (theory_of algebra.now) (windows_in windows.now) (chosen_field given.now) }
{
    match given {
        Given::Value(value) => is_in_window(algebra, windows, value),
        Given::Mark(_) => true,
    }
}

// The field that an expression makes.
fn told(given: Given) -> ShownField
    ensures { marked_field_of result ≡ told_field given }
{
    match given {
        Given::Value(value) => ShownField::Told(value),
        Given::Mark(sort) => ShownField::Given(sort),
    }
}

// The field that is only chosen.
fn only_chosen(alloc: Global, given: &Given) -> Result<ShownField, Memory>
    ensures { IfOk result (λ f. marked_field_of f ≡ chosen_field given.now) }
{
    match given {
        Given::Value(value) => Ok(ShownField::Chosen(value.copy(alloc)?)),
        Given::Mark(sort) => Ok(ShownField::Free(*sort)),
    }
}

// One more field in front.
fn in_front(field: ShownField, fields: Vec<ShownField>) -> Result<Vec<ShownField>, Memory>
    ensures { IfOk result (λ all. map marked_field_of all.items ≡ marked_field_of field ∷ map marked_field_of fields.items) }
{
    let mut all = fields;
    match all.insert(0, field) {
        Ok(()) => Ok(all),
        Err(_) => Err(Memory),
    }
}

/// The fields of an action, and what is known for variables with what its binders get.
#[derive(Drop)]
pub struct Filled {
    pub fields: Vec<ShownField>,
    pub scope: Vec<(u32, Given)>,
}

// One more field in front of these.
fn put_front(field: ShownField, filled: Filled) -> Result<Filled, Memory>
    ensures fields { IfOk result (λ x.
        map marked_field_of x.fields.items ≡ marked_field_of field ∷ map marked_field_of filled.fields.items) }
    ensures scope { IfOk result (λ x. x.scope.items ≡ filled.scope.items) }
{
    let Filled { fields, scope } = filled;
    let all = in_front(field, fields)?;
    Ok(Filled { fields: all, scope })
}

/// The fields of an action with these slots: the outer scope for its expressions, and the inner one before what its binders get. None
/// where the slots don't fit, or an expression has no value.
pub fn filled_fields(
    alloc: Global,
    prepared: &Prepared,
    windows: &[Window],
    outer: &[(u32, Given)],
    inner: Vec<(u32, Given)>,
    fields: &[ActField],
    slots: &[Slot],
    budget: u64,
) -> Result<Option<Filled>, Stop>
    requires ready { IsReady (program_in prepared.now) }
    requires values { Each (ChoosesValue (program_in prepared.now).theory) slots.now }
    ensures some { IfOk result (λ o. IfSome o (λ x. FieldsMayHave (program_in prepared.now).theory (windows_in windows.now)
        (marks_of (program_in prepared.now).theory outer.now) (marks_of (program_in prepared.now).theory inner.items)
        (map action_field_of fields.now) slots.now (map marked_field_of x.fields.items)
        (marks_of (program_in prepared.now).theory x.scope.items))) }
    ensures none { IfOk result (λ o. IfNone o ((fs : List MarkedField) (r : MarkedAssignment) →
        FieldsMayHave (program_in prepared.now).theory (windows_in windows.now)
        (marks_of (program_in prepared.now).theory outer.now) (marks_of (program_in prepared.now).theory inner.items)
        (map action_field_of fields.now) slots.now fs r → ⊥)) }
    ensures fault { IfErr result (Stops (program_in prepared.now).theory budget (λ t.
        OneOf (FieldAsks (program_in prepared.now).theory (marks_of (program_in prepared.now).theory outer.now) t)
        (map action_field_of fields.now)) Never) }
{
    match fields {
        [] => match slots {
            [] => Ok(Some(Filled {
                fields: Vec::new(alloc),
                scope: inner,
            })),
            [_, ..] => Ok(None),
        },
        [first, rest @ ..] => match first {
            ActField::Give(term) => match value_of(alloc, prepared, outer, term, budget)? {
                None => Ok(None),
                Some(given) => match filled_fields(
                    alloc, prepared, windows, outer, inner, rest, slots, budget,
                )? {
                    None => Ok(None),
                    Some(others) => Ok(Some(put_front(told(given), others)?)),
                },
            },
            ActField::Take(x, sort) => match slots {
                [] => Ok(None),
                [slot, more @ ..] => match chosen(alloc, prepared.checked, windows, slot, *sort)? {
                    None => Ok(None),
                    Some(given) => {
                        let field = only_chosen(alloc, &given)?;
                        let bound = with(inner, *x, given)?;
                        match filled_fields(
                            alloc, prepared, windows, outer, bound, rest, more, budget,
                        )? {
                            None => Ok(None),
                            Some(others) => Ok(Some(put_front(field, others)?)),
                        }
                    }
                },
            },
        },
    }
}

/// The fields of an exit with these slots. None where the slots don't fit, or an expression has no value.
pub fn filled_exit(
    alloc: Global,
    prepared: &Prepared,
    windows: &[Window],
    scope: &[(u32, Given)],
    fields: &[ExitField],
    slots: &[Slot],
    budget: u64,
) -> Result<Option<Vec<ShownField>>, Stop>
    requires ready { IsReady (program_in prepared.now) }
    requires values { Each (ChoosesValue (program_in prepared.now).theory) slots.now }
    ensures some { IfOk result (λ o. IfSome o (λ fs. ExitMayHave (program_in prepared.now).theory (windows_in windows.now)
        (marks_of (program_in prepared.now).theory scope.now) (map exit_value_of fields.now) slots.now
        (map marked_field_of fs.items))) }
    ensures none { IfOk result (λ o. IfNone o ((fs : List MarkedField) →
        ExitMayHave (program_in prepared.now).theory (windows_in windows.now)
        (marks_of (program_in prepared.now).theory scope.now) (map exit_value_of fields.now) slots.now fs → ⊥)) }
    ensures fault { IfErr result (Stops (program_in prepared.now).theory budget (λ t.
        OneOf (ExitAsks (program_in prepared.now).theory (marks_of (program_in prepared.now).theory scope.now) t)
        (map exit_value_of fields.now)) Never) }
{
    match fields {
        [] => match slots {
            [] => Ok(Some(Vec::new(alloc))),
            [_, ..] => Ok(None),
        },
        [first, rest @ ..] => match first {
            ExitField::Give(term) => match value_of(alloc, prepared, scope, term, budget)? {
                None => Ok(None),
                Some(given) => match filled_exit(
                    alloc, prepared, windows, scope, rest, slots, budget,
                )? {
                    None => Ok(None),
                    Some(others) => Ok(Some(in_front(told(given), others)?)),
                },
            },
            ExitField::Any(sort) => match slots {
                [] => Ok(None),
                [slot, more @ ..] => match chosen(alloc, prepared.checked, windows, slot, *sort)? {
                    None => Ok(None),
                    Some(given) => {
                        let field = only_chosen(alloc, &given)?;
                        match filled_exit(alloc, prepared, windows, scope, rest, more, budget)? {
                            None => Ok(None),
                            Some(others) => Ok(Some(in_front(field, others)?)),
                        }
                    }
                },
            },
        },
    }
}

/// Whether the predicate of an action, if it has one, holds, or holds a mark.
pub fn guard_may_hold(
    alloc: Global,
    prepared: &Prepared,
    scope: &[(u32, Given)],
    guard: &Option<(Term, Term)>,
    budget: u64,
) -> Result<bool, Stop>
    requires ready { IsReady (program_in prepared.now) }
    ensures decides { IfOk result (λ b. IsTrue b ↔ GuardMayHold (program_in prepared.now).theory
        (marks_of (program_in prepared.now).theory scope.now) (guard_of guard.now)) }
    ensures fault { IfErr result (Stops (program_in prepared.now).theory budget
        (GuardAsks (program_in prepared.now).theory (marks_of (program_in prepared.now).theory scope.now) (guard_of guard.now)) Never) }
{
    match guard {
        None => Ok(true),
        Some((left, right)) => may_hold(alloc, prepared, scope, left, right, budget),
    }
}
