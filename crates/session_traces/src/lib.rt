//! Traces of sessions: what follows from the definitions of sessions, of their texts and of what `replay` tells.
#![tactic(auto)]

pub mod laws;
