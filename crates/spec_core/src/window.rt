// Windows: the first values of a sort.

use crate::value::Value;

/// The first ground constructor terms of a sort, by number of symbols and then by their operations' numbers.
#[derive(Drop)]
pub struct Window {
    pub values: Vec<Value>,
    /// Whether the sort has no further value: no further ground constructor term, and no other value, as an open sort may have.
    pub complete: bool,
}
