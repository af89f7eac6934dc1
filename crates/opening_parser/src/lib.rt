//! The parser of what stands before the first behaviour inside another one.
#![tactic(auto, using(syntax_cursor::proofs::Steps::steps))]

mod binding;
mod exit;
pub mod gates;
mod heading;
mod offer;
pub mod opening;
pub mod operator;
mod prefix;
