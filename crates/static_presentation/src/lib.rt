//! The data presentation of a list of types, and the own equations of each.
#![tactic(auto)]

mod bodies;
mod call;
pub mod laws;
mod moved;
pub mod own;
mod signature;

pub use call::presentation;
