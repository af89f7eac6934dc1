//! Refusals of types that names alone decide: names without a definition, types made from themselves, names declared twice.
#![tactic(auto)]

pub mod cycle_refusal;
pub mod declared_items;
pub mod duplicates;
pub mod item_set;
pub mod laws;
pub mod name_set;
pub mod names;
pub mod refused;
pub mod unknown;
pub mod variables;
