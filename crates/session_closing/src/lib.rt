//! The end of a session: what is left to be done on its board once its clients have no more to say.
#![tactic(auto)]

pub mod closing;
