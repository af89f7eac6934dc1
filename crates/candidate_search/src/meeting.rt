// Fields that may meet the fields of an offer.

ghost use Rattle.std.specs.Prelude.{◌≡◌, ◌∷◌, ◌++◌, None, [], IfOk, Some, false, filter, if◌then◌else◌, map, option_map};
ghost use Rattle.spec_core.specs.Theories.{Theory, theory_of};
ghost use Rattle.rule_model.specs.declared.rules.Slot.TheVariants.{Of};
ghost use Rattle.symbolic_composites.specs.OpenFields as fields;
ghost use Rattle.symbolic_plans.specs.Plans.{field_of};
ghost use Rattle.symbolic_rules.specs.Tables.{windows_in};
ghost use Rattle.candidate_laws.specs.Waiting as waiting;
ghost use Rattle.candidate_search.specs.Searches as searches;

use rule_model::offer::Field;
use rule_model::rules::{Slot, Slots};
use spec_core::equation::DataSpec;
use spec_core::items::Sort;
use spec_core::memory::Memory;
use spec_core::value::Value;
use spec_core::window::Window;
use std::alloc::Global;
use std::slice;
use symbolic_plans::column::{Column, sort_of_value};
use symbolic_rules::values_at;
use symbolic_trees::choices::{choices_of, is_same};
use symbolic_trees::ways::any_marked;

// Whether one of these slots has this value.
fn is_slot(value: &Value, slots: &[Slot]) -> bool
    ensures { result ≡ waiting.is_slot value.now slots.now }
{
    match slots {
        [] => false,
        [Slot::Of(first), rest @ ..] => is_same(first, value) || is_slot(value, rest),
        [Slot::Mark, rest @ ..] => is_slot(value, rest),
        [Slot::Blank, rest @ ..] => is_slot(value, rest),
    }
}

// Whether a field that is filled with these slots may meet a field of an offer.
fn may_meet(algebra: &DataSpec, column: &Column, slots: &[Slot], field: &Field) -> bool
    ensures { result ≡ waiting.may_meet (theory_of algebra.now) (field_of column.now) slots.now field.now }
{
    match column {
        Column::Told(value, _) => match field {
            Field::Give(given) => is_same(value, given),
            Field::Take(sort) => sort_of_value(algebra, value).0 == sort.0,
        },
        Column::Blank(sort, marked) => match field {
            Field::Give(given) => {
                *marked && sort_of_value(algebra, given).0 == sort.0 || is_slot(given, slots)
            }
            Field::Take(other) => sort.0 == other.0,
        },
    }
}

// Whether fields that are filled with these slots may meet the fields of an offer.
fn all_may_meet(
    algebra: &DataSpec,
    columns: &[Column],
    choices: &[Slots],
    offered: &[Field],
) -> bool
    ensures { result ≡ waiting.all_may_meet (theory_of algebra.now) (map field_of columns.now) choices.now offered.now }
{
    match columns {
        [] => offered.is_empty(),
        [column, columns @ ..] => match choices {
            [] => false,
            [slots, choices @ ..] => match offered {
                [] => false,
                [field, offered @ ..] => {
                    may_meet(algebra, column, slots.as_slice(), field)
                        && all_may_meet(algebra, columns, choices, offered)
                }
            },
        },
    }
}

// The slot of a value, where it meets what is offered; else no slot.
fn told_slots(alloc: Global, value: &Value, meets: bool) -> Result<Slots, Memory>
    ensures { IfOk result (λ slots. slots ≡ if meets then Of value.now ∷ [] else []) }
{
    let mut all = Vec::new(alloc);
    if meets {
        all.push(Slot::Of(value.copy(alloc)?))?;
    }
    Ok(Slots::new(all))
}

// Appends the slot of a value, where it is the given one.
fn put_same(alloc: Global, value: &Value, given: &Value, all: &mut Vec<Slot>) -> Result<(), Memory>
    ensures { IfOk result (λ _. all.new.items ≡
        all.old.items ++ filter (λ own. waiting.is_slot given.now (own ∷ [])) (Of value.now ∷ [])) }
{
    if is_same(value, given) {
        all.push(Slot::Of(value.copy(alloc)?))?;
    }
    Ok(())
}

// The slots of those values that are the given one.
fn same_slots(alloc: Global, values: &[Value], given: &Value) -> Result<Vec<Slot>, Memory>
    ensures { IfOk result (λ all. all.items ≡ filter (λ own. waiting.is_slot given.now (own ∷ [])) (map Of values.now)) }
{
    let mut all = Vec::new(alloc);
    for value in values {
        put_same(alloc, value, given, &mut all)?;
    }
    Ok(all)
}

// Of the slots of a field for which no expression tells a value, those with the value that an offer gives.
fn given_slots(
    alloc: Global,
    windows: &[Window],
    sort: Sort,
    given: &Value,
) -> Result<Slots, Memory>
    ensures { IfOk result (λ slots. (theory : Theory) → slots ≡ filter (λ own. waiting.is_slot given.now (own ∷ []))
        (fields.choices theory (windows_in windows.now) (Some given.now) (fields.blank false sort.0))) }
{
    let mut all = same_slots(alloc, values_at(windows, sort), given)?;
    if !all.is_empty() {
        return Ok(Slots::new(all));
    }
    all.push(Slot::Of(given.copy(alloc)?))?;
    Ok(Slots::new(all))
}

// All slots of a field, where no offer gives its value.
fn slots_of_column(
    alloc: Global,
    algebra: &DataSpec,
    windows: &[Window],
    column: &Column,
) -> Result<Slots, Memory>
    ensures { IfOk result (λ slots. slots ≡ fields.choices (theory_of algebra.now) (windows_in windows.now) None (field_of column.now)) }
{
    let mut all = choices_of(alloc, algebra, windows, &[], slice::from_ref(column))?;
    match all.pop() {
        None => unreachable!(),
        Some(slots) => Ok(slots),
    }
}

// The slots with which a field, for which no expression gives a mark, may meet a field of an offer.
fn meeting_slots(
    alloc: Global,
    algebra: &DataSpec,
    windows: &[Window],
    column: &Column,
    field: &Field,
) -> Result<Slots, Memory>
    requires unmarked { fields.is_marked (field_of column.now) ≡ false }
    ensures { IfOk result (λ kept. kept ≡
        searches.meeting_slots (theory_of algebra.now) (windows_in windows.now) (field_of column.now) field.now) }
{
    match column {
        Column::Told(value, _) => {
            told_slots(alloc, value, may_meet(algebra, column, &[], field))
        }
        Column::Blank(sort, _) => match field {
            Field::Give(given) => given_slots(alloc, windows, *sort, given),
            Field::Take(other) => {
                if sort.0 == other.0 {
                    slots_of_column(alloc, algebra, windows, column)
                } else {
                    Ok(Slots::new(Vec::new(alloc)))
                }
            }
        },
    }
}

// Slots of a field before those of others.
fn in_front(first: Slots, others: Vec<Slots>) -> Result<Vec<Slots>, Memory>
    ensures { IfOk result (λ all. all.items ≡ first ∷ others.items) }
{
    let mut all = others;
    match all.insert(0, first) {
        Ok(()) => Ok(all),
        Err(_) => Err(Memory),
    }
}

// Of the slots that each field may have with what an offer gives, those with which it may meet the offer's field; None where there isn't a
// field for each. No expression gives a mark.
#[cycle(each_meeting)]
fn each_meeting(
    alloc: Global,
    algebra: &DataSpec,
    windows: &[Window],
    columns: &[Column],
    offered: &[Field],
) -> Result<Option<Vec<Slots>>, Memory>
    requires unmarked { fields.any_marked (map field_of columns.now) ≡ false }
    ensures { IfOk result (λ o. option_map (λ all. all.items) o ≡
        searches.each_meeting (theory_of algebra.now) (map field_of columns.now)
        (fields.all_choices (theory_of algebra.now) (windows_in windows.now) (fields.given_in offered.now) (map field_of columns.now))
        offered.now) }
{
    match columns {
        [] => match offered {
            [] => Ok(Some(Vec::new(alloc))),
            [_, ..] => Ok(None),
        },
        [column, columns @ ..] => match offered {
            [] => Ok(None),
            [field, offered @ ..] => {
                first_meeting(alloc, algebra, windows, column, field, columns, offered)
            }
        },
    }
}

// The same, with the first field.
#[cycle(each_meeting)]
#[tactic(auto, using(crate::proofs::Slots::with_first))]
fn first_meeting(
    alloc: Global,
    algebra: &DataSpec,
    windows: &[Window],
    column: &Column,
    field: &Field,
    columns: &[Column],
    offered: &[Field],
) -> Result<Option<Vec<Slots>>, Memory>
    requires first { fields.is_marked (field_of column.now) ≡ false }
    requires others { fields.any_marked (map field_of columns.now) ≡ false }
    ensures { IfOk result (λ o. option_map (λ all. all.items) o ≡
        searches.each_meeting (theory_of algebra.now) (field_of column.now ∷ map field_of columns.now)
        (fields.all_choices (theory_of algebra.now) (windows_in windows.now) (fields.given_in (field.now ∷ offered.now))
        (field_of column.now ∷ map field_of columns.now))
        (field.now ∷ offered.now)) }
{
    match each_meeting(alloc, algebra, windows, columns, offered)? {
        None => Ok(None),
        Some(others) => {
            let first = meeting_slots(alloc, algebra, windows, column, field)?;
            Ok(Some(in_front(first, others)?))
        }
    }
}

/// Of the slots that each field may have with what an offer gives, those with which it may meet the offer's field; where an expression gives
/// a mark, all of them, if the fields may meet with them; None where they don't.
pub fn all_meeting(
    alloc: Global,
    algebra: &DataSpec,
    windows: &[Window],
    columns: &[Column],
    offered: &[Field],
) -> Result<Option<Vec<Slots>>, Memory>
    ensures meeting { IfOk result (λ o. option_map (λ all. all.items) o ≡
        searches.all_meeting (theory_of algebra.now) (map field_of columns.now)
        (fields.all_choices (theory_of algebra.now) (windows_in windows.now) (fields.given_in offered.now) (map field_of columns.now))
        offered.now) }
{
    if any_marked(columns) {
        let choices = choices_of(alloc, algebra, windows, offered, columns)?;
        if all_may_meet(algebra, columns, &choices, offered) {
            Ok(Some(choices))
        } else {
            Ok(None)
        }
    } else {
        each_meeting(alloc, algebra, windows, columns, offered)
    }
}
