//! The trees of a composite that a query may ask for.
#![tactic(auto)]

pub mod laws;
pub mod marks;
pub mod meeting;
pub mod searches;
