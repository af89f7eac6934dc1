// The slots that open fields may have.

ghost use Rattle.std.specs.Prelude.{◌≡◌, ◌++◌, IfOk, Some, None, [], map};
ghost use Rattle.std.specs.Str.{bytes_eq};
ghost use Rattle.rule_model.specs.declared.rules.Slot.TheVariants.{Of};
ghost use Rattle.spec_core.specs.Theories.{theory_of};
ghost use Rattle.symbolic_composites.specs.OpenFields as fields;
ghost use Rattle.symbolic_plans.specs.Plans.{field_of};
ghost use Rattle.symbolic_rules.specs.Tables.{windows_in};

use rule_model::offer::Field;
use rule_model::rules::{Slot, Slots};
use spec_core::equation::DataSpec;
use spec_core::memory::Memory;
use spec_core::value::Value;
use spec_core::window::Window;
use std::alloc::Global;
use symbolic_plans::column::{Column, sort_of_value};
use symbolic_rules::{is_complete, values_at};

/// Whether two values are one. It takes no memory.
pub fn is_same(left: &Value, right: &Value) -> bool
    ensures same { result ≡ bytes_eq left.now right.now }
{
    left.same(right)
}

// Whether a value is one of these.
fn is_listed(value: &Value, values: &[Value]) -> bool
    ensures { result ≡ fields.is_listed value.now values.now }
{
    match values {
        [] => false,
        [first, rest @ ..] => is_same(first, value) || is_listed(value, rest),
    }
}

// Appends values.
fn put_values(alloc: Global, values: &[Value], slots: &mut Vec<Slot>) -> Result<(), Memory>
    ensures { IfOk result (λ _. slots.new.items ≡ slots.old.items ++ map Of values.now) }
{
    for value in values {
        slots.push(Slot::Of(value.copy(alloc)?))?;
    }
    Ok(())
}

// Appends the mark, where a window isn't complete.
fn put_mark_unless(complete: bool, slots: &mut Vec<Slot>) -> Result<(), Memory>
    ensures { IfOk result (λ _. slots.new.items ≡ slots.old.items ++ fields.mark_unless complete) }
{
    if !complete {
        slots.push(Slot::Mark)?;
    }
    Ok(())
}

// Appends a value that an offer gives, where it isn't one of these.
fn put_unless_listed(
    alloc: Global,
    values: &[Value],
    given: &Value,
    slots: &mut Vec<Slot>,
) -> Result<(), Memory>
    ensures { IfOk result (λ _. slots.new.items ≡ slots.old.items ++ fields.unless_listed values.now (Some given.now)) }
{
    if !is_listed(given, values) {
        slots.push(Slot::Of(given.copy(alloc)?))?;
    }
    Ok(())
}

// What a field may have for which an expression tells a value.
fn told_choices(
    alloc: Global,
    algebra: &DataSpec,
    windows: &[Window],
    value: &Value,
    marked: bool,
) -> Result<Slots, Memory>
    ensures { IfOk result (λ slots. slots ≡
        fields.choices (theory_of algebra.now) (windows_in windows.now) None (fields.fixed marked value.now)) }
{
    let mut slots = Vec::new(alloc);
    slots.push(Slot::Of(value.copy(alloc)?))?;
    let complete = is_complete(windows, sort_of_value(algebra, value));
    put_mark_unless(!marked || complete, &mut slots)?;
    Ok(Slots::new(slots))
}

// What a field may have, where no offer gives its value.
fn choices(
    alloc: Global,
    algebra: &DataSpec,
    windows: &[Window],
    column: &Column,
) -> Result<Slots, Memory>
    ensures { IfOk result (λ slots. slots ≡ fields.choices (theory_of algebra.now) (windows_in windows.now) None (field_of column.now)) }
{
    match column {
        Column::Told(value, marked) => told_choices(alloc, algebra, windows, value, *marked),
        Column::Blank(sort, _) => {
            let mut slots = Vec::new(alloc);
            put_values(alloc, values_at(windows, *sort), &mut slots)?;
            put_mark_unless(is_complete(windows, *sort), &mut slots)?;
            Ok(Slots::new(slots))
        }
    }
}

// What a field may have, where an offer gives this value.
fn choices_with(
    alloc: Global,
    algebra: &DataSpec,
    windows: &[Window],
    column: &Column,
    given: &Value,
) -> Result<Slots, Memory>
    ensures { IfOk result (λ slots. slots ≡
        fields.choices (theory_of algebra.now) (windows_in windows.now) (Some given.now) (field_of column.now)) }
{
    match column {
        Column::Told(value, marked) => told_choices(alloc, algebra, windows, value, *marked),
        Column::Blank(sort, _) => {
            let values = values_at(windows, *sort);
            let mut slots = Vec::new(alloc);
            put_values(alloc, values, &mut slots)?;
            put_unless_listed(alloc, values, given, &mut slots)?;
            put_mark_unless(is_complete(windows, *sort), &mut slots)?;
            Ok(Slots::new(slots))
        }
    }
}

// Appends what each field may have, where the fields of an offer give values.
fn put_choices(
    alloc: Global,
    algebra: &DataSpec,
    windows: &[Window],
    offered: &[Field],
    columns: &[Column],
    all: &mut Vec<Slots>,
) -> Result<(), Memory>
    ensures { IfOk result (λ _. all.new.items ≡
        all.old.items ++
        fields.all_choices (theory_of algebra.now) (windows_in windows.now) (fields.given_in offered.now) (map field_of columns.now)) }
{
    match columns {
        [] => Ok(()),
        [first, rest @ ..] => match offered {
            [] => {
                all.push(choices(alloc, algebra, windows, first)?)?;
                put_choices(alloc, algebra, windows, offered, rest, all)
            }
            [Field::Give(value), others @ ..] => {
                all.push(choices_with(alloc, algebra, windows, first, value)?)?;
                put_choices(alloc, algebra, windows, others, rest, all)
            }
            [Field::Take(_), others @ ..] => {
                all.push(choices(alloc, algebra, windows, first)?)?;
                put_choices(alloc, algebra, windows, others, rest, all)
            }
        },
    }
}

/// The slots that each open field may have, with what the fields of an offer give.
pub fn choices_of(
    alloc: Global,
    algebra: &DataSpec,
    windows: &[Window],
    offered: &[Field],
    columns: &[Column],
) -> Result<Vec<Slots>, Memory>
    ensures choices { IfOk result (λ all. all.items ≡
        fields.all_choices (theory_of algebra.now) (windows_in windows.now) (fields.given_in offered.now) (map field_of columns.now)) }
{
    let mut all = Vec::new(alloc);
    put_choices(alloc, algebra, windows, offered, columns, &mut all)?;
    Ok(all)
}
