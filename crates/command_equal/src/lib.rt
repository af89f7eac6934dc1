//! Whether two texts are equal terms of a specification.
#![tactic(auto)]

mod answer;
mod call;

pub use answer::Answer;
pub use call::compare_texts;
