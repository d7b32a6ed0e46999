//! Faults of reading and writing.
ghost use Rattle.std.specs.Prelude.{◌≡◌};

use poets_value::Memory;
use thiserror::Error;

/// A read, a write or another call on the outside failed.
#[derive(Debug, Clone, Copy, PartialEq, Eq, Error)]
#[error("the outside failed")]
pub struct Failed;

/// Why a source was not read to its end.
#[derive(Debug, Clone, Copy, PartialEq, Eq, Error)]
pub enum ReadFault {
    /// The source failed.
    #[error("the source failed")]
    Failed,

    /// The source gave more bytes than the limit.
    #[error("the source gave too many bytes")]
    TooLong,

    /// Out of memory.
    #[error("no memory is left")]
    Memory,
}

impl From<Failed> for ReadFault {
    ghost use Rattle.poets_io.specs.declared.faults.ReadFault.{ReadFault};

    ghost from_gives = { λ _ e. e ≡ ReadFault.Failed };

    fn from(_: Failed) -> ReadFault {
        ReadFault::Failed
    }
}

impl From<Memory> for ReadFault {
    ghost use Rattle.poets_io.specs.declared.faults.ReadFault.{ReadFault};

    ghost from_gives = { λ _ e. e ≡ ReadFault.Memory };

    fn from(_: Memory) -> ReadFault {
        ReadFault::Memory
    }
}
