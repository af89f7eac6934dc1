//! No list of trees by which a session goes on holds a tree twice.
#![tactic(auto)]

pub mod drawing;
pub mod laws;
