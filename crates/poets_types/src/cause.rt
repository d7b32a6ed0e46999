//! Why statements are not typed.

use poets_value::{Memory, Name, Ty};
use thiserror::Error;

/// Why something is not typed, or that memory ran out.
#[derive(Debug, Clone, Copy, PartialEq, Eq, Error)]
pub enum TypeCause {
    /// The name is declared elsewhere, or occurs earlier in the same list.
    #[error("a name stands twice")]
    Twice { name: Name },
    /// Nothing that may be used here has that name.
    #[error("a name is unknown")]
    Unknown { name: Name },
    /// The template or the report of that name has another number of parameters.
    #[error("wanted {wanted} arguments, found {found}")]
    WrongCount { name: Name, wanted: u64, found: u64 },
    /// Another type is wanted.
    #[error("wanted {wanted:?}, found {found:?}")]
    WrongType { wanted: Ty, found: Ty },
    /// Out of memory.
    #[error("no memory is left")]
    Memory,
}

/// Which statement is not typed, and why. Statements are counted from 1. If memory ran out, the number means nothing.
#[derive(Debug, Clone, Copy, PartialEq, Eq, Error)]
#[error("in statement {statement}: {cause}")]
pub struct TypeFault {
    pub statement: u64,
    pub cause: TypeCause,
}

/// Which call is not typed, and why. Calls are counted from 0. If memory ran out, the place means nothing.
#[derive(Debug, Clone, Copy, PartialEq, Eq, Error)]
#[error("in the call at place {place}: {cause}")]
pub struct CallFault {
    pub place: usize,
    pub cause: TypeCause,
}

impl From<Memory> for TypeCause {
    ghost use Rattle.std.specs.Prelude.{◌≡◌};
    ghost use Rattle.poets_types.specs.declared.cause.TypeCause.TheVariants as C;

    ghost from_gives = { λ _ cause. cause ≡ C.Memory };

    fn from(_: Memory) -> TypeCause {
        TypeCause::Memory
    }
}

impl From<Memory> for TypeFault {
    ghost use Rattle.std.specs.Prelude.{◌≡◌};
    ghost use Rattle.poets_types.specs.declared.cause.TypeCause.TheVariants as C;

    ghost from_gives = { λ _ fault. fault ≡ record { statement = 0; cause = C.Memory } };

    fn from(_: Memory) -> TypeFault {
        TypeFault {
            statement: 0,
            cause: TypeCause::Memory,
        }
    }
}

impl From<Memory> for CallFault {
    ghost use Rattle.std.specs.Prelude.{◌≡◌};
    ghost use Rattle.poets_types.specs.declared.cause.TypeCause.TheVariants as C;

    ghost from_gives = { λ _ fault. fault ≡ record { place = 0; cause = C.Memory } };

    fn from(_: Memory) -> CallFault {
        CallFault {
            place: 0,
            cause: TypeCause::Memory,
        }
    }
}
