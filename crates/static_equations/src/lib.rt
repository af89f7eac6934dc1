//! Premises and equations: what they stand for.
#![tactic(auto)]

pub mod body;
pub mod condition;
pub mod equality;
pub mod equation;
pub mod laws;
pub mod names;
mod numbering;
mod truth;
pub mod variables;
