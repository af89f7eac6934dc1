//! Cycles of calls that no action guards.
#![tactic(auto)]

pub mod call;
pub mod calls;
pub mod laws;
pub mod unguarded;
pub mod way;
