//! At which gates behaviours act.
#![tactic(auto)]

pub mod laws;
