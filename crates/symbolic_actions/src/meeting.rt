// Whether fields lie in their windows, and meet those of an offer.

ghost use Rattle.std.specs.Prelude.{◌≡◌, Some, None, map};
ghost use Rattle.spec_core.specs.Theories.{theory_of};
ghost use Rattle.symbolic_rules.specs.MarkedFields.{chosen};
ghost use Rattle.symbolic_composites.specs.OpenFields.{is_listed};
ghost use Rattle.symbolic_rules.specs.Tables.{windows_in};
ghost use Rattle.symbolic_actions.specs.Deciding as tests;
ghost use Rattle.symbolic_actions.specs.Models.{marked_field_of, show_of};

use crate::field::{ShownField, are_one};
use crate::shown::Shown;
use rule_model::offer::{Field, Offer};
use spec_core::equation::DataSpec;
use spec_core::value::Value;
use spec_core::window::Window;
use symbolic_plans::column::sort_of_value;
use symbolic_plans::composite::ActionKind;
use symbolic_plans::kind::same_kind;
use symbolic_rules::values_at;

// Whether a value is one of these.
fn is_listed(value: &Value, values: &[Value]) -> bool
    ensures { result ≡ is_listed value.now values.now }
{
    match values {
        [] => false,
        [first, rest @ ..] => are_one(first, value) || is_listed(value, rest),
    }
}

/// Whether a value stands in the window of its sort. It takes no memory.
pub fn is_in_window(algebra: &DataSpec, windows: &[Window], value: &Value) -> bool
    ensures within { result ≡ tests.is_within (theory_of algebra.now) (windows_in windows.now) (chosen value.now) }
{
    is_listed(value, values_at(windows, sort_of_value(algebra, value)))
}

/// Whether a value that is only chosen stands in the window of its sort. It takes no memory.
pub fn is_within(algebra: &DataSpec, windows: &[Window], field: &ShownField) -> bool
    ensures within { result ≡ tests.is_within (theory_of algebra.now) (windows_in windows.now) (marked_field_of field.now) }
{
    match field {
        ShownField::Told(_) => true,
        ShownField::Chosen(value) => is_in_window(algebra, windows, value),
        ShownField::Given(_) => true,
        ShownField::Free(_) => true,
    }
}

/// Whether each value that is only chosen stands in the window of its sort. It takes no memory.
pub fn all_within(algebra: &DataSpec, windows: &[Window], fields: &[ShownField]) -> bool
    ensures within { result ≡ tests.all_within (theory_of algebra.now) (windows_in windows.now) (map marked_field_of fields.now) }
{
    match fields {
        [] => true,
        [first, rest @ ..] => {
            is_within(algebra, windows, first) && all_within(algebra, windows, rest)
        }
    }
}

// Whether a field may meet a field of an offer.
fn field_may_meet(
    algebra: &DataSpec,
    windows: &[Window],
    field: &ShownField,
    offered: &Field,
) -> bool
    ensures { result ≡
        tests.field_may_meet (theory_of algebra.now) (windows_in windows.now) (marked_field_of field.now) offered.now }
{
    match offered {
        Field::Give(value) => match field {
            ShownField::Told(other) => other.same(value),
            ShownField::Chosen(other) => other.same(value),
            ShownField::Given(sort) => sort_of_value(algebra, value).0 == sort.0,
            ShownField::Free(_) => false,
        },
        Field::Take(sort) => match field {
            ShownField::Told(value) => sort_of_value(algebra, value).0 == sort.0,
            ShownField::Chosen(value) => {
                sort_of_value(algebra, value).0 == sort.0 && is_in_window(algebra, windows, value)
            }
            ShownField::Given(other) => other.0 == sort.0,
            ShownField::Free(other) => other.0 == sort.0,
        },
    }
}

// The same of fields, place by place.
fn fields_may_meet(
    algebra: &DataSpec,
    windows: &[Window],
    fields: &[ShownField],
    offered: &[Field],
) -> bool
    ensures { result ≡
        tests.fields_may_meet (theory_of algebra.now) (windows_in windows.now) (map marked_field_of fields.now) offered.now }
{
    match fields {
        [] => match offered {
            [] => true,
            [_, ..] => false,
        },
        [first, rest @ ..] => match offered {
            [] => false,
            [one, others @ ..] => {
                field_may_meet(algebra, windows, first, one)
                    && fields_may_meet(algebra, windows, rest, others)
            }
        },
    }
}

/// Whether what is shown may meet an offer. It takes no memory.
pub fn may_meet(algebra: &DataSpec, windows: &[Window], shown: &Shown, offer: &Offer) -> bool
    ensures meets { result ≡ tests.may_meet (theory_of algebra.now) (windows_in windows.now) (show_of shown.now).kind
        (show_of shown.now).fields (Some offer.now) }
{
    same_kind(shown.kind, ActionKind::At(offer.gate))
        && fields_may_meet(algebra, windows, &shown.fields, offer.fields.as_slice())
}

/// Whether what is shown may be done where nothing is offered. It takes no memory.
pub fn may_meet_any(algebra: &DataSpec, windows: &[Window], shown: &Shown) -> bool
    ensures meets { result ≡ tests.may_meet (theory_of algebra.now) (windows_in windows.now) (show_of shown.now).kind
        (show_of shown.now).fields None }
{
    all_within(algebra, windows, &shown.fields)
}
