//! Laws of accepted texts, and of the names in their types.
#![tactic(auto)]

pub mod accepted;
pub mod named;
