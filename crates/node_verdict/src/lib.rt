//! What one node shows by a tree of rules, with values and marks.
#![tactic(auto, using(crate::proofs::Memory::memory))]

mod choosing;
pub mod laws;
mod leaves;
mod making;
pub mod origins;
mod relabelled;
mod walking;
