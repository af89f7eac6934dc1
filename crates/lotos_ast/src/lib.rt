//! What the parts of the front end speak of: places, tokens, refusals and syntax trees of a text.
#![tactic(auto)]

pub mod behaviour;
pub mod declaration;
pub mod expression;
pub mod fault;
pub mod first_refusal;
pub mod laws;
pub mod mark;
pub mod names;
pub mod nest;
pub mod place;
pub mod refusal;
pub mod spec;
pub mod text_kind;
pub mod token;
pub mod types;
