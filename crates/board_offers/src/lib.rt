//! The pending offers of a session, as its rules ask for them, by their numbers.
#![tactic(auto)]

pub mod laws;
mod numbering;
pub mod waiting;
