//! Behaviours as constructs.
#![tactic(auto)]

pub mod construct;
pub mod written;
