//! Whether equations are as orthogonal data have them.
#![tactic(auto)]

mod check;
mod groups;

pub use check::check_shape;
