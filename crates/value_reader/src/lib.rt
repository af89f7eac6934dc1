//! Values read from a text.
#![tactic(auto)]

mod extent;
pub mod laws;
mod piece;
mod reading;
mod value;

pub use value::{ends_there, read_value};
