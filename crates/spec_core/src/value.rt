// Values: ground terms, kept as the preorder list of their operations.

ghost use Rattle.std.specs.Prelude.{◌≡◌, ◌↔◌, IfOk, IsTrue, length, map};
ghost use Rattle.spec_core.specs.Numbers.{op_number};
ghost use Rattle.spec_core.specs.Windows.{IsLess, IsBefore};

use crate::items::Op;
use crate::memory::Memory;
use std::alloc::Global;
use std::marker::Model;

/// A value: the operations of a ground term in preorder. A contract sees it as the list of their numbers.
#[derive(Drop)]
pub struct Value {
    ops: Vec<Op>,
}

impl Model for Value {
    ghost use Rattle.std.specs.Prelude.{ℕ, List, map};
    ghost use Rattle.spec_core.specs.Numbers.{op_number};

    ghost Value = { List ℕ };

    ghost view = { λ value. map op_number value.ops.items };
}

impl Value {
    /// The value with these operations. It takes no memory.
    pub fn new(ops: Vec<Op>) -> Value
        ensures spelled { result ≡ map op_number ops.items }
    {
        Value { ops }
    }

    /// The value's operations, in preorder. It takes no memory.
    pub fn as_slice(&self) -> &[Op]
        ensures spelled { map op_number result.now ≡ self.now }
    {
        &self.ops
    }

    /// Gives the list of operations back. It takes no memory.
    pub fn into_vec(self) -> Vec<Op>
        ensures spelled { map op_number result.items ≡ self }
    {
        self.ops
    }

    /// The number of symbols. It takes no memory.
    pub fn size(&self) -> u64
        ensures counted { result ≡ length self.now }
    {
        self.ops.len() as u64
    }

    /// An equal value.
    pub fn copy(&self, alloc: Global) -> Result<Value, Memory>
        ensures equal { IfOk result (λ value. value ≡ self.now) }
    {
        Ok(Value::new(Vec::from_slice(alloc, &self.ops)?))
    }

    /// Whether two values are equal. It takes no memory.
    pub fn same(&self, other: &Value) -> bool
        ensures decides { IsTrue result ↔ (self.now ≡ other.now) }
    {
        same_ops(&self.ops, &other.ops)
    }

    /// Whether this value comes before another in a window: fewer symbols, or as many and a smaller operation's number at the
    /// first difference. It takes no memory.
    pub fn is_before(&self, other: &Value) -> bool
        ensures decides { IsTrue result ↔ IsBefore self.now other.now }
    {
        self.ops.len() < other.ops.len()
            || self.ops.len() == other.ops.len() && is_less(&self.ops, &other.ops)
    }
}

// Whether two lists of operations are equal.
fn same_ops(left: &[Op], right: &[Op]) -> bool
    ensures { IsTrue result ↔ (map op_number left.now ≡ map op_number right.now) }
{
    match left {
        [] => right.is_empty(),
        [first, rest @ ..] => match right {
            [] => false,
            [other, others @ ..] => first.0 == other.0 && same_ops(rest, others),
        },
    }
}

// Whether the first list has the smaller number at the first place at which two lists differ.
fn is_less(left: &[Op], right: &[Op]) -> bool
    ensures { IsTrue result ↔ IsLess (map op_number left.now) (map op_number right.now) }
{
    match left {
        [] => false,
        [first, rest @ ..] => match right {
            [] => false,
            [other, others @ ..] => first.0 < other.0
                || first.0 == other.0 && is_less(rest, others),
        },
    }
}
