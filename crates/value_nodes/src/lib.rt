//! Values that share their parts: a table of nodes, each made of earlier ones.
#![tactic(auto)]

pub mod copies;
pub mod equality;
pub mod fault;
pub mod node;
pub mod spelling;
