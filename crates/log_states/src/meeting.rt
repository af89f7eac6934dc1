// Whether actions meet offers.

ghost use Rattle.std.specs.Prelude.{◌↔◌, IsTrue, map};
ghost use Rattle.spec_core.specs.Numbers.{op_number};
ghost use Rattle.spec_core.specs.Theories.{theory_of};
ghost use Rattle.rule_model.specs.Meets.{FieldMeets, FieldsMeet, IsOfSort, Meets};

use rule_model::action::Action;
use rule_model::offer::{Field, Offer};
use rule_model::sorts::result_sort;
use spec_core::equation::DataSpec;
use spec_core::items::{Op, Sort};
use spec_core::value::Value;

// Whether the first of a value's operations has this result sort.
fn begins_with_sort(algebra: &DataSpec, ops: &[Op], sort: Sort) -> bool
    ensures { IsTrue result ↔ IsOfSort (theory_of algebra.now) (map op_number ops.now) sort }
{
    match ops {
        [] => false,
        [first, ..] => result_sort(algebra, *first).0 == sort.0,
    }
}

// Whether a value meets a field.
fn field_meets(algebra: &DataSpec, value: &Value, field: &Field) -> bool
    ensures { IsTrue result ↔ FieldMeets (theory_of algebra.now) value.now field.now }
{
    match field {
        Field::Give(other) => value.same(other),
        Field::Take(sort) => begins_with_sort(algebra, value.as_slice(), *sort),
    }
}

// Whether there are as many values as fields, each of which meets its field.
fn fields_meet(algebra: &DataSpec, values: &[Value], fields: &[Field]) -> bool
    ensures { IsTrue result ↔ FieldsMeet (theory_of algebra.now) values.now fields.now }
{
    match values {
        [] => fields.is_empty(),
        [value, values @ ..] => match fields {
            [] => false,
            [field, fields @ ..] => {
                field_meets(algebra, value, field) && fields_meet(algebra, values, fields)
            }
        },
    }
}

/// Whether an action meets an offer. It takes no memory.
pub fn meets(algebra: &DataSpec, action: &Action, offer: &Offer) -> bool
    ensures { IsTrue result ↔ Meets (theory_of algebra.now) action.now offer.now }
{
    match action {
        Action::Inner => false,
        Action::Exit(_) => false,
        Action::At(gate, values) => {
            gate.0 == offer.gate.0
                && fields_meet(algebra, values.as_slice(), offer.fields.as_slice())
        }
    }
}
