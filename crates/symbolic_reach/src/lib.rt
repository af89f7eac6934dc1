//! Which terms are asked of a behaviour before its first action, and how many operators and actions stand there.
#![tactic(auto)]

pub mod laws;
