//! What comes next in a session, by its rules; what it still needs; and why it stops.
#![tactic(auto)]

pub mod drawing;
pub mod followed;
pub mod needed;
pub mod reasons;
pub mod stop_reason;
pub mod stopping;

pub use candidate_count::counting::{OFFERS_LIMIT, count_offers};
pub use node_values::{Evaluator, Forms, Prepared};
