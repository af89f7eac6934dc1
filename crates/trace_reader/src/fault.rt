// Why a trace isn't read.

use lotos_ast::text_kind::TextKind;
use spec_core::memory::Memory;
use thiserror::Error;

/// Why a trace isn't read.
#[derive(Clone, Copy, Debug, PartialEq, Eq, Error)]
pub enum TraceFault {
    /// The first line with which no trace goes on, from 1, of the kind `Form`; line 0 and the kind `Long` where the whole text is too long.
    #[error("a line isn't one of a trace")]
    Line {
        /// The line's number.
        line: u64,
        /// What is wrong with it.
        kind: TextKind,
    },
    /// Want of memory, which says nothing of the text.
    #[error("out of memory")]
    Memory,
}

impl From<Memory> for TraceFault {
    ghost use Rattle.std.specs.Prelude.{◌≡◌};
    ghost use Rattle.trace_reader.specs.declared.fault.TraceFault.TheVariants.{Memory as NoMemory};

    ghost from_gives = { λ _ e. e ≡ NoMemory };

    fn from(_: Memory) -> TraceFault {
        TraceFault::Memory
    }
}
