// Open fields of actions.

ghost use Rattle.std.specs.Prelude.{◌≡◌, ◌∷◌, [], IfOk, map, option_map};
ghost use Rattle.spec_core.specs.Numbers.{op_number};
ghost use Rattle.spec_core.specs.Theories.{theory_of};
ghost use Rattle.symbolic_rules.specs.Windows as windows;
ghost use Rattle.symbolic_composites.specs.OpenFields as fields;
ghost use Rattle.symbolic_plans.specs.Plans.{field_of};

use rule_model::sorts::result_sort;
use spec_core::equation::DataSpec;
use spec_core::items::{Op, Sort};
use spec_core::memory::Memory;
use spec_core::value::Value;
use std::alloc::Global;

/// A field of an action. With each stands whether an expression gives a mark there.
#[derive(Drop)]
pub enum Column {
    /// The value that an expression tells.
    Told(Value, bool),
    /// A value of this sort, which no expression tells.
    Blank(Sort, bool),
}

// The result sort of the first of a value's operations.
fn sort_of_operations(algebra: &DataSpec, ops: &[Op]) -> Sort
    ensures { result.0 ≡ windows.sort_of_value (theory_of algebra.now) (map op_number ops.now) }
{
    match ops {
        [] => Sort(0),
        [first, ..] => result_sort(algebra, *first),
    }
}

/// The sort of a value: the result sort of its first operation. It takes no memory.
pub fn sort_of_value(algebra: &DataSpec, value: &Value) -> Sort
    ensures sort { result.0 ≡ windows.sort_of_value (theory_of algebra.now) value.now }
{
    sort_of_operations(algebra, value.as_slice())
}

impl Column {
    /// An equal field.
    pub fn copy(&self, alloc: Global) -> Result<Column, Memory>
        ensures equal { IfOk result (λ c. field_of c ≡ field_of self.now) }
    {
        match self {
            Column::Told(value, marked) => Ok(Column::Told(value.copy(alloc)?, *marked)),
            Column::Blank(sort, marked) => Ok(Column::Blank(*sort, *marked)),
        }
    }
}

/// Equal fields, in the same order.
pub fn copy_columns(alloc: Global, columns: &[Column]) -> Result<Vec<Column>, Memory>
    ensures equal { IfOk result (λ all. map field_of all.items ≡ map field_of columns.now) }
{
    let mut all = Vec::new(alloc);
    for column in columns {
        all.push(column.copy(alloc)?)?;
    }
    Ok(all)
}

/// Two fields at one place of an action, together; None where they don't agree.
pub fn together(
    alloc: Global,
    algebra: &DataSpec,
    left: &Column,
    right: &Column,
) -> Result<Option<Column>, Memory>
    ensures together { IfOk result (λ o.
        option_map field_of o ≡ fields.together (theory_of algebra.now) (field_of left.now) (field_of right.now)) }
{
    match left {
        Column::Told(value, marked) => match right {
            Column::Told(other, beside) => {
                if value.same(other) {
                    Ok(Some(Column::Told(value.copy(alloc)?, *marked || *beside)))
                } else {
                    Ok(None)
                }
            }
            Column::Blank(sort, beside) => {
                if sort_of_value(algebra, value).0 == sort.0 {
                    Ok(Some(Column::Told(value.copy(alloc)?, *marked || *beside)))
                } else {
                    Ok(None)
                }
            }
        },
        Column::Blank(sort, marked) => match right {
            Column::Told(value, beside) => {
                if sort_of_value(algebra, value).0 == sort.0 {
                    Ok(Some(Column::Told(value.copy(alloc)?, *marked || *beside)))
                } else {
                    Ok(None)
                }
            }
            Column::Blank(other, beside) => {
                if sort.0 == other.0 {
                    Ok(Some(Column::Blank(*sort, *marked || *beside)))
                } else {
                    Ok(None)
                }
            }
        },
    }
}

/// One more field in front.
pub fn in_front(column: Column, columns: Vec<Column>) -> Result<Vec<Column>, Memory>
    ensures in_front { IfOk result (λ all. map field_of all.items ≡ field_of column ∷ map field_of columns.items) }
{
    let mut all = columns;
    match all.insert(0, column) {
        Ok(()) => Ok(all),
        Err(_) => Err(Memory),
    }
}

/// The fields of two actions together, place by place; None where some don't agree, or there isn't the same number of them.
pub fn all_together(
    alloc: Global,
    algebra: &DataSpec,
    left: &[Column],
    right: &[Column],
) -> Result<Option<Vec<Column>>, Memory>
    ensures together { IfOk result (λ o.
        option_map (λ all. map field_of all.items) o ≡
        fields.all_together (theory_of algebra.now) (map field_of left.now) (map field_of right.now)) }
{
    match left {
        [] => match right {
            [] => Ok(Some(Vec::new(alloc))),
            [_, ..] => Ok(None),
        },
        [first, rest @ ..] => match right {
            [] => Ok(None),
            [other, others @ ..] => match together(alloc, algebra, first, other)? {
                None => Ok(None),
                Some(column) => match all_together(alloc, algebra, rest, others)? {
                    None => Ok(None),
                    Some(columns) => Ok(Some(in_front(column, columns)?)),
                },
            },
        },
    }
}
