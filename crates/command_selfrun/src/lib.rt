//! The session of a generated script over a generated specification, and the line that tells of it.
#![tactic(auto)]

mod answer;
mod call;
mod counting;
mod counts;
mod line;

pub use answer::Answer;
pub use call::run_generated;
pub use counts::Counts;
pub use front_laws::accepted::accepted_is_ready;
pub use line::counts_line;
