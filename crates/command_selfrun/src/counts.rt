// What a session had of each kind.

use spec_core::memory::Memory;

/// What a session had of each kind.
#[derive(Clone, Copy, Debug, PartialEq, Eq)]
pub struct Counts {
    /// Actions.
    pub actions: u64,
    /// Those of them that took an offer.
    pub taken: u64,
    /// Those of them that were internal.
    pub internal: u64,
    /// Offers that were answered, but not by being taken.
    pub other: u64,
}
