//! The processes of a specification.
#![tactic(auto)]

pub mod entry;
pub mod heading;
pub mod named_parts;
pub mod refusals;
pub mod table;
pub mod where_parts;
