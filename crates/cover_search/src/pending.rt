// Patterns that the search has still to look at.

use crate::arguments::Arguments;

/// A pattern, with the numbers of rows that may meet it.
#[derive(Drop)]
pub struct Pending {
    pub pattern: Arguments,
    pub candidates: Vec<usize>,
}
