//! The faults of a text.

use poets_value::Memory;

/// Why a text has no tokens, with the place of the byte where the first fault begins; or that memory ran out.
#[derive(Debug, Clone, Copy, PartialEq, Eq)]
pub enum LexFault {
    /// The byte begins no token.
    BadByte { at: u32 },
    /// The number is past 9223372036854775807.
    LongNumber { at: u32 },
    /// The name has more than 64 bytes.
    LongName { at: u32 },
    /// Out of memory.
    Memory,
}

impl From<Memory> for LexFault {
    ghost use Rattle.std.specs.Prelude.{◌≡◌};
    ghost use Rattle.poets_lex.specs.declared.fault.LexFault.TheVariants as F;

    ghost from_gives = { λ _ fault. fault ≡ F.Memory };

    fn from(_: Memory) -> LexFault {
        LexFault::Memory
    }
}
