// What comes of a text that is to be a trace.

use lotos_ast::text_kind::TextKind;
use spec_core::term::Term;

/// What comes of a text that is to be the trace of a derivation.
#[derive(Drop)]
pub enum Answer {
    /// Its log is a derivation with so many actions.
    Derivation(u64),
    /// It is a trace, and its log is a derivation up to this line, counted from 1, whose entry isn't possible there.
    NotADerivation(u64),
    /// It is a trace, and the tree of some line, up to which its log is a derivation, asks this term, which has no value within the budget.
    Spent(Term),
    /// The same, where the evaluation of the term meets a value of more than 65,536 symbols.
    TooLarge(Term),
    /// It isn't a trace of the specification.
    Refused {
        /// The first line that is in no trace, counted from 1; 0 where the text is too long.
        line: u64,
        /// What is wrong with it.
        kind: TextKind,
    },
}
