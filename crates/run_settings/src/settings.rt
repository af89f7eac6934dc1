// What a run is given: numbers, and how it draws.

/// How a seed and a count of actions are mixed to the number that chooses among internal steps.
#[derive(Clone, Copy, Debug, PartialEq, Eq)]
pub enum Draw {
    /// By a multiplication: one rotation, in which seeds begin at different places.
    Rotation,
    /// By four rounds of squaring.
    Squares,
}

/// What bounds and steers a run.
#[derive(Clone, Copy, Debug, PartialEq, Eq)]
pub struct Settings {
    /// The greatest number of rewrites in one evaluation, from 1 to 2^32.
    pub budget: u64,
    /// How many values of a sort are tried, from 1 to 256.
    pub values: u32,
    /// The greatest number of actions, from 1 to 1,000,000.
    pub steps: u32,
    /// What chooses among internal steps, from 0 to 2^32 - 1.
    pub seed: u32,
    /// How it chooses.
    pub draw: Draw,
}
