//! The trees that a session looks for, their lists over nodes of which not all are expanded, and what is decided from what is known.
#![tactic(auto)]

pub mod list_laws;
pub mod tree_laws;
