//! Whether each equation's sides are below its left side in the path order.
#![tactic(auto)]

mod below;
mod check;
mod dependence;
mod inside;
mod mentions;
mod sides;

pub use check::check_decrease;
