//! The first values of a sort, found by building terms until nothing new comes.
#![tactic(auto)]

mod filling;
mod first_values;
mod growth;
mod ordered;

pub use first_values::{window, windows};
