//! What comes of a text that is to be the trace of a derivation.
#![tactic(auto)]

mod answer;
mod call;

pub use answer::Answer;
pub use call::replay_text;
