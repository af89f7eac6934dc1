//! Whether two equations of one operation are apart, and which constants their premises give to terms.
#![tactic(auto)]

pub mod apart;
pub mod common;
mod exclusion;
mod given;
pub mod laws;
mod library;
mod negation;
mod plain;
mod renaming;

pub use given::{candidate, constant_given, gives_to_candidates};
