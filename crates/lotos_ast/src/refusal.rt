// Why a text is refused.

ghost use Rattle.std.specs.Prelude.{◌≡◌};
ghost use Rattle.lotos_ast.specs.Refusals.{number_of, name_of};

use crate::names::Names;
use crate::place::Place;
use spec_core::memory::Memory;
use std::alloc::{AllocError, AllocFailed};

/// The reasons for which a text is refused.
#[derive(Clone, Copy, Debug, PartialEq, Eq)]
pub enum RefusalKind {
    BadByte,
    OpenComment,
    Unexpected,
    TooDeep,
    TooLong,
    UnknownType,
    TypeCycle,
    UnknownSort,
    DuplicateName,
    BadRenaming,
    BadActual,
    UnknownName,
    NoReading,
    Ambiguous,
    ConstructorHasEquation,
    PatternHasDefined,
    NotLeftLinear,
    LooseVariable,
    Overlap,
    NotDecreasing,
    UnknownGate,
    UnknownProcess,
    WrongCount,
    WrongFunctionality,
    Unguarded,
    External,
}

impl RefusalKind {
    /// The number by which a refusal of this kind is printed, from 1 to 27; none has the number 21. It takes no memory.
    pub fn number(self) -> u8
        ensures { result ≡ number_of self }
    {
        match self {
            RefusalKind::BadByte => 1,
            RefusalKind::OpenComment => 2,
            RefusalKind::Unexpected => 3,
            RefusalKind::TooDeep => 4,
            RefusalKind::TooLong => 5,
            RefusalKind::UnknownType => 6,
            RefusalKind::TypeCycle => 7,
            RefusalKind::UnknownSort => 8,
            RefusalKind::DuplicateName => 9,
            RefusalKind::BadRenaming => 10,
            RefusalKind::BadActual => 11,
            RefusalKind::UnknownName => 12,
            RefusalKind::NoReading => 13,
            RefusalKind::Ambiguous => 14,
            RefusalKind::ConstructorHasEquation => 15,
            RefusalKind::PatternHasDefined => 16,
            RefusalKind::NotLeftLinear => 17,
            RefusalKind::LooseVariable => 18,
            RefusalKind::Overlap => 19,
            RefusalKind::NotDecreasing => 20,
            RefusalKind::UnknownGate => 22,
            RefusalKind::UnknownProcess => 23,
            RefusalKind::WrongCount => 24,
            RefusalKind::WrongFunctionality => 25,
            RefusalKind::Unguarded => 26,
            RefusalKind::External => 27,
        }
    }

    /// The name by which a refusal of this kind is printed. It takes no memory.
    pub fn name(self) -> &'static str
        ensures { result.now ≡ name_of self }
    {
        match self {
            RefusalKind::BadByte => "BadByte",
            RefusalKind::OpenComment => "OpenComment",
            RefusalKind::Unexpected => "Unexpected",
            RefusalKind::TooDeep => "TooDeep",
            RefusalKind::TooLong => "TooLong",
            RefusalKind::UnknownType => "UnknownType",
            RefusalKind::TypeCycle => "TypeCycle",
            RefusalKind::UnknownSort => "UnknownSort",
            RefusalKind::DuplicateName => "DuplicateName",
            RefusalKind::BadRenaming => "BadRenaming",
            RefusalKind::BadActual => "BadActual",
            RefusalKind::UnknownName => "UnknownName",
            RefusalKind::NoReading => "NoReading",
            RefusalKind::Ambiguous => "Ambiguous",
            RefusalKind::ConstructorHasEquation => "ConstructorHasEquation",
            RefusalKind::PatternHasDefined => "PatternHasDefined",
            RefusalKind::NotLeftLinear => "NotLeftLinear",
            RefusalKind::LooseVariable => "LooseVariable",
            RefusalKind::Overlap => "Overlap",
            RefusalKind::NotDecreasing => "NotDecreasing",
            RefusalKind::UnknownGate => "UnknownGate",
            RefusalKind::UnknownProcess => "UnknownProcess",
            RefusalKind::WrongCount => "WrongCount",
            RefusalKind::WrongFunctionality => "WrongFunctionality",
            RefusalKind::Unguarded => "Unguarded",
            RefusalKind::External => "External",
        }
    }
}

/// A text is refused.
#[derive(Drop)]
pub struct Refusal {
    /// The reason.
    pub kind: RefusalKind,
    /// The place at which the text is refused.
    pub place: Place,
    /// What the reason speaks of, as `docs/LANGUAGE.md` says of each.
    pub names: Names,
}

impl Refusal {
    /// The number by which the refusal is printed, from 1 to 27; none has the number 21. It takes no memory.
    pub fn number(&self) -> u8
        ensures { result ≡ number_of self.now.kind }
    {
        self.kind.number()
    }
}

/// Why a part of the front end has no answer.
#[derive(Drop)]
pub enum FrontFault {
    /// The text is refused.
    Refused(Refusal),
    /// Memory ran out, which says nothing of the text.
    Memory,
}

impl From<Memory> for FrontFault {
    ghost use Rattle.lotos_ast.specs.declared.refusal.FrontFault.TheVariants.{Memory};

    ghost from_gives = { λ _ fault. fault ≡ Memory };

    fn from(_: Memory) -> FrontFault {
        FrontFault::Memory
    }
}

impl From<AllocError> for FrontFault {
    ghost use Rattle.lotos_ast.specs.declared.refusal.FrontFault.TheVariants.{Memory};

    ghost from_gives = { λ _ fault. fault ≡ Memory };

    fn from(_: AllocError) -> FrontFault {
        FrontFault::Memory
    }
}

impl<T: Drop> From<AllocFailed<T>> for FrontFault {
    ghost use Rattle.lotos_ast.specs.declared.refusal.FrontFault.TheVariants.{Memory};

    ghost from_gives = { λ _ fault. fault ≡ Memory };

    fn from(_: AllocFailed<T>) -> FrontFault {
        FrontFault::Memory
    }
}
