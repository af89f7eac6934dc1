//! Images of equations under new numbers of sorts and operations, and which equations are one.
#![tactic(auto)]

pub mod image;
pub mod key;
pub mod numbers;
pub mod same;
pub mod set;
pub mod shared;
