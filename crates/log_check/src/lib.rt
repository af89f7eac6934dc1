//! Whether a log is a derivation, and laws of logs that are, or end being one.
#![tactic(auto)]

mod checking;
mod clients;
mod entry;
mod fault;
pub mod laws;
mod reached;

pub use checking::check;
pub use fault::CheckFault;
