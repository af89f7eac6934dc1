//! Sessions of any number of clients: definitions, what follows from them, and what they tell their clients.
#![tactic(auto)]

pub mod answers;
pub mod complete;
pub mod laws;
