//! The words of a call: which command they name, and what they tell it.
#![tactic(auto)]

mod command;
pub mod laws;
mod number;
mod option;
mod reader;

pub use command::{Command, read_command};
