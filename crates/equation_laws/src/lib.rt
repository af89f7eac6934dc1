//! Laws of what is refused of data.
#![tactic(auto)]

pub mod laws;
