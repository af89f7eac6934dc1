//! What follows from the inference rules, and from those of terms in the places of variables.
#![tactic(auto)]

pub mod laws;
pub mod substitution;
