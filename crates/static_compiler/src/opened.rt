// Constructs that are begun to be read.

use crate::frame::Frame;
use crate::joining::Joining;
use crate::mark::Mark;

/// A construct over one part that is opened: the part is read next.
#[derive(Drop)]
pub struct Opened {
    /// Where reading stood before the construct.
    pub mark: Mark,
    /// What stands around the part.
    pub frame: Frame,
}

/// An enabling of which the left part is read: the right one is read next.
#[derive(Drop)]
pub struct OpenedRight {
    /// Where reading stood behind the left part.
    pub mark: Mark,
    /// What stands behind the two, if nothing hinders it.
    pub joining: Option<Joining>,
}
