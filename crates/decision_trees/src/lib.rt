//! Trees of questions: what is decided from what is known, and what is still to be asked.
#![tactic(auto)]

pub mod laws;
