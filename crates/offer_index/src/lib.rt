//! The composites of a tree, gate by gate, kept from look to look.
#![tactic(auto)]

pub mod index;

pub use candidate_composites::known::{expanded_composites, some_waits};
pub use symbolic_plans::composite::OpenComposite;
pub use symbolic_plans::scheme::Scheme;
