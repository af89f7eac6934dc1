// The list behind the lock of a session.

use rule_model::log::Entry;

/// A line of the list behind the lock. No value of it is made.
pub enum Line {
    /// An entry of the session's log.
    Happened(Entry),
    /// A turn met want of memory. Nothing follows.
    Halted,
}
