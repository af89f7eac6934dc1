//! Certificates of equality: lists of steps, each a rule of the derivation system of data types, and their checker.
//!
//! The checker evaluates nothing: it stands on the definition of provable equality alone.
#![tactic(auto)]

pub mod check;
pub mod fault;
pub mod instances;
pub mod laws;
pub mod pair;
pub mod proof;
pub mod steps;
pub mod variables;
