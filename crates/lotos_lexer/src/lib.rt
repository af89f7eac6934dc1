//! The tokens of a text.
#![tactic(auto)]

mod bytes;
mod comment;
mod operation;
mod piece;
mod refusals;
mod symbol;
mod tokenize;
mod word;

pub use tokenize::{TEXT_LIMIT, tokens};
