//! Why texts are no calls.

use poets_value::Memory;
use thiserror::Error;

/// Why texts are no calls of a book.
#[derive(Debug, Clone, Copy, PartialEq, Eq, Error)]
pub enum RecoverFault {
    /// The text with this number, from 1, is no call of the book, or brings the texts past `MOST_STORED` bytes.
    #[error("text {number} is no call of the book")]
    Text { number: u64 },
    /// Out of memory.
    #[error("no memory is left")]
    Memory,
}

impl From<Memory> for RecoverFault {
    ghost use Rattle.std.specs.Prelude.{◌≡◌};
    ghost use Rattle.poets_recover.specs.declared.fault.RecoverFault.TheVariants as F;

    ghost from_gives = { λ _ fault. fault ≡ F.Memory };

    fn from(_: Memory) -> RecoverFault {
        RecoverFault::Memory
    }
}
