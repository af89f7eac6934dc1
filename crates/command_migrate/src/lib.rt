//! A trace in format 2.
#![tactic(auto)]

mod answer;
mod call;

pub use answer::Answer;
pub use call::migrate_text;
