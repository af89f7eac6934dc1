//! The board of a session: what happened, what is known of the nodes of the behaviour that is reached, and which jobs are out.
#![tactic(auto)]

mod appending;
pub mod board;
mod copying;
mod deciding;
mod finishing;
pub mod job;
mod jobs;
mod looking;
mod sources;

pub use appending::has_ended;
pub use board_laws::{Evaluator, Forms, Prepared};
pub use candidate_verdicts::pieces::Piece;
