//! Evaluation as it is defined, step by step and slowly: what faster bodies are tried against.
#![tactic(auto)]

mod evaluation;
mod fault;
pub mod matching;

pub use evaluation::{Evaluated, plain_value};
pub use fault::EvaluationFault;
