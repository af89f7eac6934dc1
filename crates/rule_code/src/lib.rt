//! The behaviours and processes that stand at numbers of a checked specification's code.
#![tactic(auto)]

mod gates;
mod parts;
mod processes;

pub use gates::{gate_at, renaming};
pub use parts::{node_at, open_part, start};
pub use processes::{Definition, process_at};
