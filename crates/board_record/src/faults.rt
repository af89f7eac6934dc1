// Why an offer isn't made, and why a client doesn't leave.

use spec_core::memory::Memory;
use thiserror::Error;

/// Why an offer isn't made: the first of these that holds.
#[derive(Clone, Copy, Debug, PartialEq, Eq, Error)]
pub enum PendFault {
    /// The client isn't open.
    #[error("the client isn't open")]
    NotOpen,
    /// The client has an offer pending.
    #[error("the client has an offer pending")]
    AlreadyPending,
    /// The gate isn't one of the specification's.
    #[error("the gate isn't one of the specification's")]
    NoSuchGate,
    /// Want of memory.
    #[error("out of memory")]
    Memory,
}

/// Why a client doesn't leave: the first of these that holds.
#[derive(Clone, Copy, Debug, PartialEq, Eq, Error)]
pub enum LeaveFault {
    /// The client has an offer pending.
    #[error("the client has an offer pending")]
    Pending,
    /// The client isn't open.
    #[error("the client isn't open")]
    NotOpen,
    /// Want of memory.
    #[error("out of memory")]
    Memory,
}
