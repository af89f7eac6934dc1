// Values in order.

ghost use Rattle.std.specs.Prelude.{◌≡◌, ◌<◌, ◌↔◌, [], IsTrue, OnOk, length};
ghost use Rattle.spec_core.specs.Lists.{Each, IsOneOf};
ghost use Rattle.spec_core.specs.Windows.{IsBefore, IsInOrder};
ghost use Rattle.sort_windows.specs.Found.{IsFound, IsPlaceOf, HasGained};

use spec_core::memory::Memory;
use spec_core::value::Value;
use std::alloc::Global;
use std::marker::Model;

/// Values of one sort, in the order of a window. A contract sees them as a list.
#[derive(Drop)]
pub struct OrderedValues {
    values: Vec<Value>,
}

impl Model for OrderedValues {
    ghost use Rattle.std.specs.Prelude.{ℕ, List};

    ghost Value = { List (List ℕ) };

    ghost view = { λ ordered. ordered.values.items };
}

impl OrderedValues {
    /// No values. It takes no memory.
    pub fn new(alloc: Global) -> OrderedValues
        ensures empty { result ≡ [] }
    {
        OrderedValues {
            values: Vec::new(alloc),
        }
    }

    /// The values in their order. It takes no memory.
    pub fn as_slice(&self) -> &[Value]
        ensures same { result.now ≡ self.now }
    {
        &self.values
    }

    /// Puts a value that is not among them at its place, and drops what is then beyond the limit.
    pub fn insert(&mut self, value: Value, limit: usize) -> Result<(), Memory>
        requires in_order { IsInOrder self.old }
        requires new { IsOneOf value self.old → ⊥ }
        ensures gained { OnOk result (HasGained limit value self.old self.new) }
    {
        let place = place_of(&self.values, &value);
        self.values.insert(place, value)?;
        self.values.truncate(limit);
        Ok(())
    }
}

/// Whether a value is one of these, or they are as many as the limit and all come before it. It takes no memory.
pub fn is_found(values: &[Value], limit: usize, value: &Value) -> bool
    ensures decides { IsTrue result ↔ IsFound limit values.now value.now }
{
    is_one_of(value, values) || values.len() == limit && all_before(values, value)
}

/// Whether there are as many values as the limit, all with fewer symbols than this one. It takes no memory.
pub fn are_shorter(values: &[Value], limit: usize, value: &Value) -> bool
    requires in_order { IsInOrder values.now }
    ensures shorter { IsTrue result → (length values.now ≡ limit) × Each (λ w. length w < length value.now) values.now }
{
    if values.len() != limit {
        return false;
    }
    match values.last() {
        None => true,
        Some(last) => last.size() < value.size(),
    }
}

// How many of the values come before this one, which is not among them.
fn place_of(values: &[Value], value: &Value) -> usize
    requires in_order { IsInOrder values.now }
    requires new { IsOneOf value.now values.now → ⊥ }
    ensures place { IsPlaceOf value.now values.now result }
{
    match values {
        [] => 0,
        [first, rest @ ..] => if first.is_before(value) {
            1 + place_of(rest, value)
        } else {
            0
        },
    }
}

// Whether the value is one of these.
fn is_one_of(value: &Value, values: &[Value]) -> bool
    ensures { IsTrue result ↔ IsOneOf value.now values.now }
{
    match values {
        [] => false,
        [first, rest @ ..] => value.same(first) || is_one_of(value, rest),
    }
}

// Whether all of these come before the value.
fn all_before(values: &[Value], value: &Value) -> bool
    ensures { IsTrue result ↔ Each (λ w. IsBefore w value.now) values.now }
{
    match values {
        [] => true,
        [first, rest @ ..] => first.is_before(value) && all_before(rest, value),
    }
}
