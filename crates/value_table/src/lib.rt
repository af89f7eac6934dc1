//! Ground terms in a table: each is kept once, as an operation over terms by their numbers.
#![tactic(auto)]

pub mod reading;
pub mod sorts;
pub mod spelling;
pub mod table;
