// Why a script or a term isn't read.

ghost use Rattle.std.specs.Prelude.{◌≡◌};
ghost use Rattle.script_text.specs.Answers.{OnKind};

use lotos_ast::text_kind::TextKind;
use spec_core::memory::Memory;
use std::alloc::{AllocError, AllocFailed};

/// Why a script or a term isn't read.
#[derive(Clone, Copy, Debug, PartialEq, Eq)]
pub enum ScriptFault {
    /// The first line that isn't in the grammar, from 1, with what is wrong with it; line 0 where the whole text is too long.
    Line {
        /// The line's number.
        line: u64,
        /// What is wrong with it.
        kind: TextKind,
    },
    /// Want of memory, which says nothing of the text.
    Memory,
}

// Why a line isn't read.
#[derive(Clone, Copy, Debug, PartialEq, Eq)]
pub enum LineFault {
    // What is wrong with it.
    Kind(TextKind),
    // Want of memory.
    Memory,
}

impl LineFault {
    // The fault of the line of this number.
    pub fn at(self, line: u64) -> ScriptFault
        ensures line { OnKind self (λ kind. result ≡ ScriptFault.Line line kind) }
        ensures memory { self ≡ LineFault.Memory → result ≡ ScriptFault.Memory }
    {
        match self {
            LineFault::Kind(kind) => ScriptFault::Line { line, kind },
            LineFault::Memory => ScriptFault::Memory,
        }
    }
}

impl From<Memory> for ScriptFault {
    ghost use Rattle.std.specs.Prelude.{◌≡◌};
    ghost use Rattle.script_text.specs.declared.fault.ScriptFault.TheVariants.{Memory};

    ghost from_gives = { λ _ fault. fault ≡ Memory };

    fn from(_: Memory) -> ScriptFault {
        ScriptFault::Memory
    }
}

impl From<AllocError> for ScriptFault {
    ghost use Rattle.std.specs.Prelude.{◌≡◌};
    ghost use Rattle.script_text.specs.declared.fault.ScriptFault.TheVariants.{Memory};

    ghost from_gives = { λ _ fault. fault ≡ Memory };

    fn from(_: AllocError) -> ScriptFault {
        ScriptFault::Memory
    }
}

impl From<Memory> for LineFault {
    ghost use Rattle.std.specs.Prelude.{◌≡◌};
    ghost use Rattle.script_text.specs.declared.fault.LineFault.TheVariants.{Memory};

    ghost from_gives = { λ _ fault. fault ≡ Memory };

    fn from(_: Memory) -> LineFault {
        LineFault::Memory
    }
}

impl From<AllocError> for LineFault {
    ghost use Rattle.std.specs.Prelude.{◌≡◌};
    ghost use Rattle.script_text.specs.declared.fault.LineFault.TheVariants.{Memory};

    ghost from_gives = { λ _ fault. fault ≡ Memory };

    fn from(_: AllocError) -> LineFault {
        LineFault::Memory
    }
}

impl<T: Drop> From<AllocFailed<T>> for LineFault {
    ghost use Rattle.std.specs.Prelude.{◌≡◌};
    ghost use Rattle.script_text.specs.declared.fault.LineFault.TheVariants.{Memory};

    ghost from_gives = { λ _ fault. fault ≡ Memory };

    fn from(_: AllocFailed<T>) -> LineFault {
        LineFault::Memory
    }
}
