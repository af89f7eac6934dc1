//! Values as text.
#![tactic(auto)]

pub mod value;
pub mod vocabulary;
