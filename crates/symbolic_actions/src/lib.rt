//! What behaviours show by trees of rules, and what rules make of it.
#![tactic(auto)]

pub mod field;
pub mod laws;
pub mod meeting;
pub mod over;
pub mod shown;
