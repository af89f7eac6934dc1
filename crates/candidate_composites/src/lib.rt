//! The composites of a tree of nodes, as far as its nodes are expanded.
#![tactic(auto)]

mod context;
pub mod foremost;
mod found;
mod joining;
pub mod known;
pub mod laws;
mod listed;
mod operators;
pub mod part;
pub mod sought;
pub mod step;
