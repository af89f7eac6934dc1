//! What the parsers stand on: the tokens that are left, what stands several times in a row, and refusals.
#![tactic(auto, using(crate::proofs::Steps::steps))]

pub mod cursor;
pub mod identifier;
pub mod item;
pub mod parse_fault;
pub mod refusals;
