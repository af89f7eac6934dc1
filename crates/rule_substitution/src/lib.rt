//! Terms in the places of variables of behaviours, and gates in the places of gates.
#![tactic(auto)]

mod behaviour;
pub mod relabelling;
pub mod scope;
