//! The tree that is seen in the place of a tree of rules, with marks for what lies beyond the windows and nothing gives.
#![tactic(auto)]

pub mod laws;
