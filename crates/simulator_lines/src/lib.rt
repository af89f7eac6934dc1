//! Lines of the simulator: what an engineer asks for.
#![tactic(auto)]

mod digits;
pub mod line;
mod reading;

pub use reading::read_line;
