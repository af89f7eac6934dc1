// What comes of two texts.

use lotos_ast::text_kind::TextKind;
use spec_core::term::Term;

/// What comes of two texts that are to be terms of a specification.
#[derive(Drop)]
pub enum Answer {
    /// They are equal terms.
    Equal,
    /// They are terms of one sort that aren't equal.
    Unequal,
    /// They are terms of one sort, and this one has no value within the budget.
    Spent(Term),
    /// They are terms of one sort, and the evaluation of this one meets a value of more than 65,536 symbols.
    TooLarge(Term),
    /// One of them isn't a term, or they are of two sorts.
    Refused {
        /// Which of the texts, 1 or 2.
        line: u64,
        /// What is wrong with it.
        kind: TextKind,
    },
}
