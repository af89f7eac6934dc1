//! Sessions whose clients and workers run in threads.
#![tactic(auto)]

mod places;
mod rows;
pub mod run;
mod serving;
mod stepping;
mod threads;
