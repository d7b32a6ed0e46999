//! Why bytes are no document.

use poets_parse::Unread;
use thiserror::Error;

/// Why bytes are no document.
#[derive(Debug, Clone, Copy, PartialEq, Eq, Error)]
pub enum ImportFault {
    /// They are not UTF-8, or no JSON value whose arrays and objects nest at most 127 deep.
    #[error("the text is no JSON value")]
    NoJson,

    /// The value is no document.
    #[error("the value is no document")]
    Shape,

    /// Out of memory.
    #[error("no memory is left")]
    Memory,
}

impl From<Unread> for ImportFault {
    ghost use Rattle.std.specs.Prelude.{◌≡◌};
    ghost use Rattle.poets_import.specs.Faults.{fault_of};

    ghost from_gives = { λ unread fault. fault ≡ fault_of unread };

    fn from(unread: Unread) -> ImportFault {
        match unread {
            Unread::Shape => ImportFault::Shape,
            Unread::Memory => ImportFault::Memory,
        }
    }
}
