// Parts that are read.

use spec_core::code::Part;
use static_readings::functionality::Functionality;

/// A part that is read.
#[derive(Drop)]
pub struct ReadPart {
    /// The number at which its nodes begin.
    pub from: usize,
    /// The number of the last node that was put out then.
    pub last: Part,
    /// How it ends, if it is read.
    pub ends: Option<Functionality>,
}
