//! What a worker computes of a node: what its origin can take part in, and how it acts then.
#![tactic(auto, using(crate::proofs::Memory::memory))]

mod alternatives;
pub mod node;
