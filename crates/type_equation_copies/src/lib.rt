//! What becomes of equations in copies of types, and the data that a list of types comes to.
#![tactic(auto)]

pub mod equations;
pub mod item_index;
pub mod made;
pub mod new_numbers;
pub mod order;
pub mod schedule;
