//! The reader of behaviour.
#![tactic(auto)]

pub mod closing;
pub mod copies;
pub mod frame;
pub mod gates;
pub mod joining;
pub mod layer;
pub mod leaves;
pub mod mark;
pub mod names;
pub mod opened;
pub mod opening;
pub mod over;
pub mod read_part;
pub mod reader;
