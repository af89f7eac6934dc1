// Why a value was not made.

ghost use Rattle.std.specs.Prelude.{◌≡◌};

use spec_core::memory::Memory;
use thiserror::Error;

/// Why a value was not made.
#[derive(Clone, Copy, Debug, PartialEq, Eq, Error)]
pub enum NodeFault {
    /// The value would have more than 65,536 symbols.
    #[error("a value of more than 65536 symbols")]
    TooLarge,
    /// Want of memory.
    #[error("out of memory")]
    Memory,
}

impl From<Memory> for NodeFault {
    ghost use Rattle.value_nodes.specs.declared.fault.NodeFault.TheVariants.{Memory as NoMemory};

    ghost from_gives = { λ _ e. e ≡ NoMemory };

    fn from(_: Memory) -> NodeFault {
        NodeFault::Memory
    }
}
