//! Overload resolution: what an expression stands for.
#![tactic(auto)]

mod combine;
pub mod judging;
pub mod name_index;
mod named_variables;
mod names;
mod operations;
mod readings;
pub mod resolution;
pub mod scope;
mod selection;
mod table;
pub mod unknowns;
pub mod variables;
