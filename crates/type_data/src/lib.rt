//! The data that a list of types comes to.
#![tactic(auto)]

pub mod data;
pub mod equations;
pub mod items;
pub mod signature;
