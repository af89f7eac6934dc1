//! Sessions of one client, or of none: definitions, and what follows from them.
#![tactic(auto)]

pub mod laws;
