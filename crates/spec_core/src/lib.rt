//! What every other crate speaks of: names, numbers of items, terms, values, data, and want of memory.
#![tactic(auto)]

pub mod code;
pub mod constructors;
pub mod equation;
pub mod items;
pub mod laws;
pub mod memory;
pub mod name;
pub mod names;
pub mod signature;
pub mod term;
pub mod term_text;
pub mod value;
pub mod window;
