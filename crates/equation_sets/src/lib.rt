//! Sets of small numbers, as of sorts or operations.
#![tactic(auto)]

pub mod numbers;
pub mod set;
