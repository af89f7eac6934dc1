//! Workers that take jobs from a desk, perform them and put the results back, until the desk is over.
#![tactic(auto)]

mod desk;
mod worker;

pub use desk::{Desk, Offered, Probe};
pub use worker::drive;
