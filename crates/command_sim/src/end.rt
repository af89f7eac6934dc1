// How a simulation ends.

/// How a simulation ends whose whole text was written.
#[derive(Clone, Copy, Debug, PartialEq, Eq)]
pub enum End {
    /// A line asked for nothing more, or the input ended.
    Done,
    /// A term has no value within the budget.
    Spent,
    /// A limit was exceeded: of actions, of possible steps, of the size of a value, or of the input.
    Limit,
    /// The input couldn't be read.
    Unread,
}
