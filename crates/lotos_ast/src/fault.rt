// Why reading stops.

ghost use Rattle.std.specs.Prelude.{◌≡◌};
ghost use Rattle.lotos_ast.specs.Nesting.{fault_at};

use crate::mark::Mark;

/// Why reading stops at a token.
#[derive(Clone, Copy, Debug, PartialEq, Eq)]
pub enum Fault {
    /// No text goes on with it.
    Unexpected,
    /// It is nested too deep.
    TooDeep,
    /// No text goes on with it, and it marks an item as external.
    External,
}

impl Fault {
    /// The fault at a token with this mark with which no text goes on. The token is nested within the limits or too deep. It takes
    /// no memory.
    pub fn at(within: bool, mark: Mark) -> Fault
        ensures { result ≡ fault_at within mark }
    {
        if !Mark::ExternalMark.is_same(mark) {
            Fault::Unexpected
        } else if within {
            Fault::External
        } else {
            Fault::TooDeep
        }
    }
}
