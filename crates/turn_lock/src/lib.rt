//! A lock round one value, whose turns are served in the order of tickets.
#![tactic(auto)]

mod plays;
mod rule;
mod seat;
mod standing;
mod turns;

pub use seat::TurnSeat;
pub use standing::Standing;
pub use turns::{Held, Turns};
