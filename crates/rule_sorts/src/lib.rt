//! Which sorts the terms of behaviours have.
#![tactic(auto)]

pub mod laws;
