//! What each equation must be by itself.
#![tactic(auto)]

pub mod fault;
pub mod heads;
mod patterns;
mod repeated;
pub mod variables;
