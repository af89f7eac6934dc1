//! What is known of trees of rules over a tree of nodes, and whether queries ask for them.
#![tactic(auto)]

pub mod asked;
mod key;
pub mod laws;
pub mod pieces;
pub mod rule;
pub mod same;
pub mod shown;
