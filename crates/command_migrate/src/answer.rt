// What comes of a text that is to be a trace.

use lotos_ast::text_kind::TextKind;

/// What comes of a text that is to be a trace, in either format.
#[derive(Drop)]
pub enum Answer {
    /// The trace of the same log and the same end in format 2.
    Migrated(String),
    /// It isn't a trace of the specification.
    Refused {
        /// The first line that is in no trace, counted from 1; 0 where the text is too long.
        line: u64,
        /// What is wrong with it.
        kind: TextKind,
    },
}
