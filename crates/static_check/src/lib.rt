//! The static semantics of a specification: its behaviour over its data.
#![tactic(auto)]

pub mod assembly;
pub mod bodies;
pub mod compile;
pub mod ending;
pub mod entering;
pub mod judgement;
pub mod laws;
pub mod setting;
pub mod start;
