//! Laws of syntax trees, and of the names in a text.
#![tactic(auto)]

pub mod laws;
pub mod name_laws;
