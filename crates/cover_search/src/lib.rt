//! Which sorts have a value, and the search for a pattern that no row of patterns matches.
#![tactic(auto)]

mod alternatives;
mod arguments;
mod constructors;
mod heads;
mod index;
mod lefts;
mod opening;
mod pending;
mod rows;
mod search;
mod sorts;
mod split;

pub use arguments::Arguments;
pub use constructors::ConstructorIndex;
pub use heads::{HeadIndex, Headed};
pub use index::DataIndex;
pub use lefts::LeftIndex;
pub use search::uncovered_pattern;
pub use sorts::are_in;
