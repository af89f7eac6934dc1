// Headings of processes.

use crate::functionality::Functionality;
use spec_core::items::Sort;
use spec_core::name::Name;

/// What a call of a process must fit.
#[derive(Drop)]
pub struct Heading {
    /// Its name.
    pub name: Name,
    /// Its number.
    pub number: u32,
    /// How many gates it has.
    pub gates: usize,
    /// The sorts of its values, as far as they are known.
    pub sorts: Vec<Option<Sort>>,
    /// How it ends, where all sorts that it names are known.
    pub functionality: Option<Functionality>,
}
