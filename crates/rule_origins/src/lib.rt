//! The behaviours at the numbers of a specification's code, with values for their variables; and each kind of construct there, opened.
#![tactic(auto)]

pub mod code;
pub mod laws;
mod stack;
pub mod tidying;
pub mod values;
pub mod views;
