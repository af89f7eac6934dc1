//! Types are flattened: what each of them has, and why a list of types is refused.
#![tactic(auto)]

pub mod copies;
pub mod flatten;
pub mod refusals;
