//! The session of one client, or of none, on a board without threads.
#![tactic(auto)]

pub mod run;
pub mod settling_all;
