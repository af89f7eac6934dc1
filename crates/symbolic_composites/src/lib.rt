//! Composites of a behaviour: its trees with the values left open, the ordered lists of trees that come of them, and when such lists are ready.
#![tactic(auto)]

pub mod laws;
pub mod ready;
pub mod testable;
