//! What holds of the texts of terms.
#![tactic(auto)]

pub mod laws;
