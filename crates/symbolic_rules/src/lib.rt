//! The trees of rules that are seen within windows, why nothing else needs to be looked at, worked examples, and tables of windows.
#![tactic(auto)]

pub mod examples;
pub mod laws;
mod tables;

pub use tables::{is_complete, values_at};
