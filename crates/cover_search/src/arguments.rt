// Lists of patterns.

use spec_core::term::Term;

/// The arguments of a left side, or a pattern for them.
#[derive(Drop)]
pub struct Arguments {
    pub items: Vec<Term>,
}
