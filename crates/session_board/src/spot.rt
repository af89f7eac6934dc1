// Where a client stands in the list.

/// So many lines of the list, with so many actions among them.
#[derive(Clone, Copy)]
pub struct Spot {
    pub lines: u64,
    pub actions: u64,
}
