//! Laws of executable data: each ground term has one value, and ground terms are equal exactly where they have the same value.
#![tactic(auto)]

pub mod laws;
