//! Traces read from a text.
#![tactic(auto)]

mod action;
mod cursor;
mod entry;
mod fault;
mod line;
mod line_word;
mod named;
mod number;
mod offer;
mod reply;
mod rule_word;
mod rules;
mod slots;
mod trace;
mod tree;
mod value;
mod words;

pub use fault::TraceFault;
pub use trace::{TRACE_LIMIT, Trace, read_trace};
