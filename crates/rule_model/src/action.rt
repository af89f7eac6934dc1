// What a behaviour does.

ghost use Rattle.std.specs.Prelude.{◌≡◌, ◌↔◌, IfOk, IsTrue};

use spec_core::items::Gate;
use spec_core::memory::Memory;
use spec_core::value::Value;
use std::alloc::Global;
use std::marker::Model;

/// Values in order, which contracts see as a list.
#[derive(Drop)]
pub struct Values {
    values: Vec<Value>,
}

impl Model for Values {
    ghost use Rattle.std.specs.Prelude.{ℕ, List};

    ghost Value = { List (List ℕ) };

    ghost view = { λ values. values.values.items };
}

impl Values {
    /// These values. It takes no memory.
    pub fn new(values: Vec<Value>) -> Values
        ensures { result ≡ values.items }
    {
        Values { values }
    }

    /// The values as a slice. It takes no memory.
    pub fn as_slice(&self) -> &[Value]
        ensures { result.now ≡ self.now }
    {
        self.values.as_slice()
    }

    /// Whether two lists of values are equal. It takes no memory.
    pub fn same(&self, other: &Values) -> bool
        ensures decides { IsTrue result ↔ (self.now ≡ other.now) }
    {
        same_values(&self.values, &other.values)
    }

    /// Equal values, in the same order.
    pub fn copy(&self, alloc: Global) -> Result<Values, Memory>
        ensures equal { IfOk result (λ values. values ≡ self.now) }
    {
        let mut all = Vec::new(alloc);
        for value in &self.values {
            all.push(value.copy(alloc)?)?;
        }
        Ok(Values::new(all))
    }

    /// Gives the list back. It takes no memory.
    pub fn into_vec(self) -> Vec<Value>
        ensures { result.items ≡ self }
    {
        self.values
    }
}

/// An action: internal, successful termination with values, or one at a gate with values.
#[derive(Drop)]
pub enum Action {
    Inner,
    Exit(Values),
    At(Gate, Values),
}

// Whether two lists of values are equal.
fn same_values(left: &[Value], right: &[Value]) -> bool
    ensures { IsTrue result ↔ (left.now ≡ right.now) }
{
    match left {
        [] => right.is_empty(),
        [first, rest @ ..] => match right {
            [] => false,
            [other, others @ ..] => first.same(other) && same_values(rest, others),
        },
    }
}

impl Action {
    /// Whether two actions are equal. It takes no memory.
    pub fn same(&self, other: &Action) -> bool
        ensures decides { IsTrue result ↔ (self.now ≡ other.now) }
    {
        match self {
            Action::Inner => match other {
                Action::Inner => true,
                Action::Exit(_) => false,
                Action::At(_, _) => false,
            },
            Action::Exit(values) => match other {
                Action::Inner => false,
                Action::Exit(others) => values.same(others),
                Action::At(_, _) => false,
            },
            Action::At(gate, values) => match other {
                Action::Inner => false,
                Action::Exit(_) => false,
                Action::At(at, others) => gate.0 == at.0 && values.same(others),
            },
        }
    }

    /// An equal action.
    pub fn copy(&self, alloc: Global) -> Result<Action, Memory>
        ensures equal { IfOk result (λ action. action ≡ self.now) }
    {
        match self {
            Action::Inner => Ok(Action::Inner),
            Action::Exit(values) => Ok(Action::Exit(values.copy(alloc)?)),
            Action::At(gate, values) => Ok(Action::At(*gate, values.copy(alloc)?)),
        }
    }
}
