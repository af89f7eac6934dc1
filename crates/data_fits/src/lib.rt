//! Whether the parts of data fit together.
#![tactic(auto)]

mod fits;
mod sorts;

pub use fits::fits_data;
pub use sorts::{has_sort, head_sort};
