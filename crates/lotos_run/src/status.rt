// How a call ends.

ghost use Rattle.std.specs.Prelude.{◌≡◌};

/// How a call of the program ends.
#[derive(Clone, Copy, Debug, PartialEq, Eq)]
pub enum Status {
    /// The command was carried out.
    Done,
    /// The specification is refused.
    Refused,
    /// The words are no call.
    Usage,
    /// A file that the words name could not be read.
    ReadFault,
    /// The output could not be written.
    WriteFault,
    /// Want of memory.
    Memory,
    /// A term has no value within the budget.
    Spent,
    /// A value has more symbols than are allowed.
    Limit,
    /// A script, a term or a trace is not as it has to be.
    ScriptRefused,
    /// A trace is not that of a derivation.
    NotADerivation,
}

impl Status {
    ghost use Rattle.lotos_run.specs.Statuses.{number_of};

    /// The number with which the program ends, from 0 to 9.
    pub fn number(self) -> u8
        ensures { result ≡ number_of self }
    {
        match self {
            Status::Done => 0,
            Status::Refused => 1,
            Status::Usage => 2,
            Status::ReadFault => 3,
            Status::WriteFault => 4,
            Status::Memory => 5,
            Status::Spent => 6,
            Status::Limit => 7,
            Status::ScriptRefused => 8,
            Status::NotADerivation => 9,
        }
    }
}
