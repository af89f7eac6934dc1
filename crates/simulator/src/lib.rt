//! Simulations by hand: whoever simulates sees which steps are possible, and chooses one, or offers something.
#![tactic(auto)]

pub mod answer;
mod answering;
mod menu;
mod offering;
pub mod sim;
