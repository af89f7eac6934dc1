//! Refusals of types that their contents decide: sorts that aren't there, pairs of names that can't be, formal items that nothing replaces.
#![tactic(auto)]

pub mod actuals;
pub mod bad_operations;
pub mod bad_pairs;
pub mod bad_sorts;
pub mod copy;
pub mod sorts;
