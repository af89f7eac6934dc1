//! The trees of rules by which the behaviour that a board has reached may act, listed in order.
#![tactic(auto)]

mod doing;
pub mod list;
mod looking;
