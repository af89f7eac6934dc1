//! Scripts and terms: what a text says in the names of a specification.
#![tactic(auto)]

pub mod fault;
pub mod laws;
mod lines;
mod meaning;
mod names;
mod numbers;
mod offer;
mod offered;
mod script;
mod term;
mod vocabulary;
mod whole;
pub mod wish;
#[tactic(auto, using(syntax_cursor::proofs::Steps::steps))]
mod written;

pub use offer::read_offer;
pub use script::{SCRIPT_LIMIT, read_script};
pub use term::{read_term, read_typed_term};
