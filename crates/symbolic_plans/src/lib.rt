//! Composites whose values are left open, the operators over lists of them, and the plans that a behaviour's constructs make.
#![tactic(auto)]

pub mod column;
pub mod composite;
pub mod kind;
pub mod laws;
pub mod operators;
pub mod own_laws;
pub mod part;
pub mod rules;
pub mod scheme;
