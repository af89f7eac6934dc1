//! What each of a list of types has: its sorts and operations, and their numbers.
#![tactic(auto)]

pub mod brings;
pub mod brought;
pub mod contents;
pub mod described;
pub mod flat;
pub mod images;
pub mod item;
pub mod item_kind;
pub mod item_table;
pub mod numbers;
pub mod order;
pub mod own;
pub mod parts;
pub mod schedule;
pub mod standing;
pub mod type_index;
