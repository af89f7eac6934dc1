//! Laws of types, constructs and specifications that are alike: tokens have one reading.
#![tactic(auto)]

pub mod constructs;
pub mod specifications;
pub mod trees;
pub mod types;
