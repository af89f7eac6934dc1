//! The lines of an input that is read piece by piece.
#![tactic(auto)]

mod ends;
pub mod laws;

pub use ends::without_carriage_return;
