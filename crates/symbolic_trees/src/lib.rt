//! The trees of a composite by their numbers, without building those before.
#![tactic(auto)]

pub mod choices;
pub mod counts;
pub mod places;
pub mod ways;
