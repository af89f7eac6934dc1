//! The next entry of a session by its rules, as far as what is known decides it.
#![tactic(auto)]

pub mod asking;
pub mod laws;
pub mod listing;
#[tactic(auto, using(crate::proofs::Skipping::skipping))]
pub mod needed;
pub mod settle;
