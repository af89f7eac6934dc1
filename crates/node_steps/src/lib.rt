//! The ways in which one node can act: what is done along a tree of rules with blanks, and what is left then.
#![tactic(auto, using(crate::proofs::Memory::memory))]

mod choices;
mod entering;
mod fields;
pub mod laws;
mod leaves;
mod leaving;
mod sites;
mod telling;
mod turn;
pub mod walking;
mod widths;
