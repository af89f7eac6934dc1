//! The state of a session: who is open, what is offered, and what was done; and which entries of a log are possible in it.
#![tactic(auto)]

mod clients;
mod meeting;
mod naming;
pub mod pending;
pub mod state;

pub use naming::is_named;
pub use pending::Pending;
