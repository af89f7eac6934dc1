//! The agreements that a session may commit, from what is known of its tree.
#![tactic(auto)]

mod composites;
pub mod entry;
pub mod job;
pub mod known_tree;
pub mod laws;
mod lists;
mod searching;
pub mod walk;
