//! Which operations are partial: whether each call over ground constructor terms is decided by a group of equations; and which sorts are open.
#![tactic(auto)]

mod cases;
mod partial;
mod rows;
mod sorts;

pub use partial::partial_operations;
pub use sorts::open_sorts;
