//! What constructs of behaviour are read as.
#![tactic(auto)]

pub mod declarations;
pub mod fields;
pub mod functionality;
pub mod heading;
pub mod named_processes;
pub mod output;
pub mod site;
pub mod values;
