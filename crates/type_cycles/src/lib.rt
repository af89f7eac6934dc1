//! Types that are made from themselves.
#![tactic(auto)]

pub mod cycle;
pub mod ends;
pub mod laws;
pub mod numbers;
pub mod reach;
pub mod ways;
