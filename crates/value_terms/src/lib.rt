//! The sorts of ground terms, and the terms that values spell.
#![tactic(auto)]

mod reading;
mod stack;

pub use reading::{are_constructors, sort_of_ground, term_of_sort, term_with};
