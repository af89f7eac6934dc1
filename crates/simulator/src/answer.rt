// What a line of a simulation is answered.

ghost use Rattle.std.specs.Prelude.{◌≡◌};

use rule_model::action::Action;
use rule_model::reply::Reply;
use spec_core::memory::Memory;
use std::alloc::{AllocError, AllocFailed};

/// The answer to a line.
#[derive(Drop)]
pub enum SimAnswer {
    /// The steps that are possible, a line for each.
    Menu(String),
    /// This action was done.
    Done(Action),
    /// No action was done, and this is why.
    Answer(Reply),
    /// The trace so far.
    Trace(String),
    /// The simulation ends.
    Bye,
}

/// Why a line has no answer.
#[derive(Drop)]
pub enum SimFault {
    /// It is no line of the simulator.
    BadLine,
    /// There is no step of this number in the last menu, or an action was done since.
    NoStep,
    /// Want of memory. Each further line is answered so.
    Memory,
}

impl From<Memory> for SimFault {
    ghost use Rattle.simulator.specs.declared.answer.SimFault.TheVariants.{Memory as NoMemory};

    ghost from_gives = { λ _ e. e ≡ NoMemory };

    fn from(_: Memory) -> SimFault {
        SimFault::Memory
    }
}

impl From<AllocError> for SimFault {
    ghost use Rattle.simulator.specs.declared.answer.SimFault.TheVariants.{Memory as NoMemory};

    ghost from_gives = { λ _ e. e ≡ NoMemory };

    fn from(_: AllocError) -> SimFault {
        SimFault::Memory
    }
}

impl<T: Drop> From<AllocFailed<T>> for SimFault {
    ghost use Rattle.simulator.specs.declared.answer.SimFault.TheVariants.{Memory as NoMemory};

    ghost from_gives = { λ _ e. e ≡ NoMemory };

    fn from(_: AllocFailed<T>) -> SimFault {
        SimFault::Memory
    }
}
