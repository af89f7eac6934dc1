// What comes of a text that is to be a script.

use lotos_ast::text_kind::TextKind;
use rule_model::log::{End, Log};
use spec_core::term::Term;

/// What comes of a text that is to be a script of a specification.
#[derive(Drop)]
pub enum Answer {
    /// Its session: what happened, and how it ended.
    Ran(Log, End),
    /// It is a script, and this term of it has no value within the budget.
    Spent(Term),
    /// It is a script, and the evaluation of this term of it meets a value of more than 65,536 symbols.
    TooLarge(Term),
    /// It is no script.
    Refused {
        /// The line, from 1, or 0 where the text is too long.
        line: u64,
        /// What is wrong with it.
        kind: TextKind,
    },
}
