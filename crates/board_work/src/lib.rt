//! Jobs of a board: done without it, and what comes of them handed in.
#![tactic(auto)]

pub mod handing_in;
pub mod outcome;
pub mod performing;
pub mod settling;
pub mod working;

pub use node_trees::expansion::Expansion;
pub use node_trees::origin::{Gen, Origin};
