//! Values of expressions whose variables may have marks.
#![tactic(auto, using(crate::proofs::Stopping::memory))]

pub mod fields;
pub mod scope;
pub mod stop;
pub mod value;

pub use match_code::{Evaluator, Forms, Prepared};
