//! The parser of behaviours, processes and whole specifications.
#![tactic(auto, using(syntax_cursor::proofs::Steps::steps))]

mod accepts;
pub mod behaviour;
mod functionality;
mod joined;
mod process;
mod spec;

pub use data_parser::types;
pub use spec::specification;
