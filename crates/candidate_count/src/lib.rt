//! How many possible agreements a tree of nodes has, up to a limit.
#![tactic(auto)]

pub mod counting;
pub mod laws;
mod places;
mod trees;
mod walking;
