//! The record of a session: its log, the state that the log leads to, and the tree of its behaviour, which change together.
#![tactic(auto)]

mod answered;
mod faults;
mod ready_act;
pub mod record;

pub use answered::{Answered, actions_with, reply_in};
pub use faults::{LeaveFault, PendFault};
