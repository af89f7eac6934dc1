//! The session of a script over a specification.
#![tactic(auto)]

mod answer;
mod call;

pub use answer::Answer;
pub use call::run_text;
