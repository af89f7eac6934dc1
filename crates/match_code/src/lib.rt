//! The value of a ground term by a machine that remembers what it has evaluated.
#![tactic(auto)]

mod engine;
mod evaluator;
mod frames;
mod hints;
mod interned;
mod matching;
mod memo;
mod moves;
mod prepared;
mod rights;
mod run;
mod state;
mod tidying;
mod trees;
mod uses;

pub use engine::Engine;
pub use evaluator::Evaluator;
pub use prepared::Prepared;
pub use rewriter::Eval;
pub use rights::Forms;
