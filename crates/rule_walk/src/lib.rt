//! The specification's behaviour, and the steps of behaviours by trees of inference rules.
#![tactic(auto, using(crate::proofs::Faults::memory))]

mod fault;
mod fields;
mod frame;
mod judge;
pub mod laws;
mod rows;
mod steps;

pub use fault::FireFault;
pub use rule_code::start;
pub use steps::fire;
