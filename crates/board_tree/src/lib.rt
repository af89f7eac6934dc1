//! The behaviour that a board has reached, as a tree of nodes with generations.
#![tactic(auto)]

mod advance;
pub mod change;
mod leaf;
mod operators;
pub mod ready;
mod side;
pub mod tree;
