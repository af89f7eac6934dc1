//! Traces: the text of a log and of how it ended.
#![tactic(auto)]

mod entry;
mod format;
mod front;
pub mod laws;
mod lines;
mod numbers;
mod offers;
mod pieces;
mod print;
mod tree;

pub use entry::{put_action, put_answer, put_end_word, put_event};
pub use format::Format;
pub use lines::LinesBefore;
pub use numbers::{entry_line, line_number};
pub use print::{first_line, print_entries, print_log};
