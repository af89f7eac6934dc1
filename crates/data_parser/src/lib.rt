//! The parser of data types and expressions.
#![tactic(auto, using(syntax_cursor::proofs::Steps::steps))]

mod calls;
pub mod declaration;
mod equation;
pub mod expressions;
mod operation;
mod sort;
pub mod type_definition;

pub use calls::{expression, types};
