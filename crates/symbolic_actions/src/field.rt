// Fields of actions that are shown, and which of them agree.

ghost use Rattle.std.specs.Prelude.{◌≡◌, ◌==◌, ◌∷◌, IfOk, map, option_map};
ghost use Rattle.std.specs.Str.{bytes_eq};
ghost use Rattle.spec_core.specs.Code.{variable_of};
ghost use Rattle.spec_core.specs.Theories.{theory_of};
ghost use Rattle.symbolic_rules.specs.MarkedFields.{told, given, sort_of_field};
ghost use Rattle.symbolic_actions.specs.Deciding as tests;
ghost use Rattle.symbolic_actions.specs.Deciding.{field_where};
ghost use Rattle.symbolic_actions.specs.Models.{marked_field_of};

use spec_core::equation::DataSpec;
use spec_core::items::Sort;
use spec_core::memory::Memory;
use spec_core::value::Value;
use std::alloc::Global;
use symbolic_plans::column::sort_of_value;

/// A field of an action that a behaviour shows.
#[derive(Drop)]
pub enum ShownField {
    /// The value that an expression tells.
    Told(Value),
    /// A value that is only chosen.
    Chosen(Value),
    /// The mark of a sort, from an expression that holds a mark.
    Given(Sort),
    /// The mark of a sort that is only chosen.
    Free(Sort),
}

impl ShownField {
    /// An equal field.
    pub fn copy(&self, alloc: Global) -> Result<ShownField, Memory>
        ensures equal { IfOk result (λ f. marked_field_of f ≡ marked_field_of self.now) }
    {
        match self {
            ShownField::Told(value) => Ok(ShownField::Told(value.copy(alloc)?)),
            ShownField::Chosen(value) => Ok(ShownField::Chosen(value.copy(alloc)?)),
            ShownField::Given(sort) => Ok(ShownField::Given(*sort)),
            ShownField::Free(sort) => Ok(ShownField::Free(*sort)),
        }
    }

    /// The sort of the field. It takes no memory.
    pub fn sort(&self, algebra: &DataSpec) -> Sort
        ensures sort { result.0 ≡ sort_of_field (theory_of algebra.now) (marked_field_of self.now) }
    {
        match self {
            ShownField::Told(value) => sort_of_value(algebra, value),
            ShownField::Chosen(value) => sort_of_value(algebra, value),
            ShownField::Given(sort) => *sort,
            ShownField::Free(sort) => *sort,
        }
    }
}

/// Equal fields, in the same order.
pub fn copy_fields(alloc: Global, fields: &[ShownField]) -> Result<Vec<ShownField>, Memory>
    ensures equal { IfOk result (λ all. map marked_field_of all.items ≡ map marked_field_of fields.now) }
{
    let mut all = Vec::new(alloc);
    for field in fields {
        all.push(field.copy(alloc)?)?;
    }
    Ok(all)
}

/// Whether two values are one. It takes no memory.
pub fn are_one(left: &Value, right: &Value) -> bool
    ensures one { result ≡ bytes_eq left.now right.now }
{
    left.same(right)
}

// A field, where the test is passed.
fn kept(alloc: Global, passed: bool, field: &ShownField) -> Result<Option<ShownField>, Memory>
    ensures { IfOk result (λ o. option_map marked_field_of o ≡ field_where passed (marked_field_of field.now)) }
{
    if passed {
        Ok(Some(field.copy(alloc)?))
    } else {
        Ok(None)
    }
}

// A value as a told one, where the test is passed.
fn told_where(alloc: Global, passed: bool, value: &Value) -> Result<Option<ShownField>, Memory>
    ensures { IfOk result (λ o. option_map marked_field_of o ≡ field_where passed (told value.now)) }
{
    if passed {
        Ok(Some(ShownField::Told(value.copy(alloc)?)))
    } else {
        Ok(None)
    }
}

// The mark of a sort as a given one, where the test is passed.
fn given_where(passed: bool, sort: Sort) -> Option<ShownField>
    ensures { option_map marked_field_of result ≡ field_where passed (given sort.0) }
{
    if passed {
        Some(ShownField::Given(sort))
    } else {
        None
    }
}

/// Two fields at one place of an action, together; None where they don't agree.
pub fn agreed(
    alloc: Global,
    algebra: &DataSpec,
    left: &ShownField,
    right: &ShownField,
) -> Result<Option<ShownField>, Memory>
    ensures agreed { IfOk result (λ o.
        option_map marked_field_of o ≡ tests.agreed (theory_of algebra.now) (marked_field_of left.now) (marked_field_of right.now)) }
{
    match left {
        ShownField::Told(value) => match right {
            ShownField::Told(other) => kept(alloc, are_one(value, other), left),
            ShownField::Chosen(other) => kept(alloc, are_one(value, other), left),
            ShownField::Given(sort) => kept(alloc, sort_of_value(algebra, value).0 == sort.0, left),
            ShownField::Free(_) => Ok(None),
        },
        ShownField::Chosen(value) => match right {
            ShownField::Told(other) => told_where(alloc, are_one(value, other), value),
            ShownField::Chosen(other) => kept(alloc, are_one(value, other), left),
            ShownField::Given(sort) => kept(alloc, sort_of_value(algebra, value).0 == sort.0, left),
            ShownField::Free(_) => Ok(None),
        },
        ShownField::Given(sort) => match right {
            ShownField::Told(value) => {
                kept(alloc, sort_of_value(algebra, value).0 == sort.0, right)
            }
            ShownField::Chosen(value) => {
                kept(alloc, sort_of_value(algebra, value).0 == sort.0, right)
            }
            ShownField::Given(other) => kept(alloc, sort.0 == other.0, left),
            ShownField::Free(other) => kept(alloc, sort.0 == other.0, left),
        },
        ShownField::Free(sort) => match right {
            ShownField::Told(_) => Ok(None),
            ShownField::Chosen(_) => Ok(None),
            ShownField::Given(other) => Ok(given_where(sort.0 == other.0, *sort)),
            ShownField::Free(other) => kept(alloc, sort.0 == other.0, left),
        },
    }
}

// One more field in front.
fn in_front(field: ShownField, fields: Vec<ShownField>) -> Result<Vec<ShownField>, Memory>
    ensures { IfOk result (λ all. map marked_field_of all.items ≡ marked_field_of field ∷ map marked_field_of fields.items) }
{
    let mut all = fields;
    match all.insert(0, field) {
        Ok(()) => Ok(all),
        Err(_) => Err(Memory),
    }
}

/// The fields of two actions together, place by place; None where some don't agree, or there isn't the same number of them.
pub fn all_agreed(
    alloc: Global,
    algebra: &DataSpec,
    left: &[ShownField],
    right: &[ShownField],
) -> Result<Option<Vec<ShownField>>, Memory>
    ensures agreed { IfOk result (λ o.
        option_map (λ all. map marked_field_of all.items) o ≡
        tests.all_agreed (theory_of algebra.now) (map marked_field_of left.now) (map marked_field_of right.now)) }
{
    match left {
        [] => match right {
            [] => Ok(Some(Vec::new(alloc))),
            [_, ..] => Ok(None),
        },
        [first, rest @ ..] => match right {
            [] => Ok(None),
            [other, others @ ..] => match agreed(alloc, algebra, first, other)? {
                None => Ok(None),
                Some(field) => match all_agreed(alloc, algebra, rest, others)? {
                    None => Ok(None),
                    Some(fields) => Ok(Some(in_front(field, fields)?)),
                },
            },
        },
    }
}

/// Whether fields are of the sorts of these variables. It takes no memory.
pub fn have_sorts(algebra: &DataSpec, vars: &[(u32, Sort)], fields: &[ShownField]) -> bool
    ensures sorts { result ≡
        tests.have_sorts (theory_of algebra.now) (map variable_of vars.now) (map marked_field_of fields.now) }
{
    match vars {
        [] => match fields {
            [] => true,
            [_, ..] => false,
        },
        [first, rest @ ..] => match fields {
            [] => false,
            [field, others @ ..] => {
                let (_, sort) = first;
                field.sort(algebra).0 == sort.0 && have_sorts(algebra, rest, others)
            }
        },
    }
}
