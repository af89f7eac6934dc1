//! Laws of what is compiled: behaviour, whole specifications, and the data presentation of their types.
#![tactic(auto)]

pub mod compiled;
pub mod presentation;
pub mod specification;
