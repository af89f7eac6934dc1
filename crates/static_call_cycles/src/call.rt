// Calls.

use lotos_ast::place::Place;

/// A call of a process.
#[derive(Clone, Copy, Debug, PartialEq, Eq)]
pub struct Call {
    /// Where it stands.
    pub place: Place,
    /// The number of the process.
    pub process: usize,
}
