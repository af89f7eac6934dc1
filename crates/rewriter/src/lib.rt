//! The value of a ground term by a machine with stacks of its own, and whether two terms have one value.
#![tactic(auto)]

pub mod call;
pub mod compaction;
pub mod equations;
mod evaluate;
mod fault;
pub mod heads;
mod matching;
pub mod run;
pub mod step;
pub mod values;

pub use evaluate::{compare, judge, value};
pub use fault::{Eval, Side, SideFault};
