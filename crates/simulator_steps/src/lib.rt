//! Steps of a session of one client by hand: which are possible, one that is chosen, and one that an offer asks for.
#![tactic(auto)]

pub mod asking;
pub mod choosing;
pub mod listing;
