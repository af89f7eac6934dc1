//! What linear patterns match, and what two of them have in common.
#![tactic(auto)]

pub mod laws;
pub mod shape;
