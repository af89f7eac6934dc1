//! What one node can take part in: its composites, down to the first actions.
#![tactic(auto, using(crate::proofs::Memory::memory))]

pub mod expansion;
pub mod joining;
pub mod leaves;
pub mod outcome;
mod relabelled;
mod walk;
