//! Whether the equations of one left side decide each call that it matches.
#![tactic(auto)]

mod constants;
mod full;
mod group;
mod premises;
mod renaming;

pub use group::has_full_group;
