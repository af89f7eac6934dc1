//! The front end as a whole: from a text to what can be run, or the first refusal.
#![tactic(auto)]

mod call;
pub mod check;
pub mod data;
pub mod libraries;
pub mod parsed;
pub mod types;

pub use call::accept;
