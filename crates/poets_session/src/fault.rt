//! Why a text is no session.
ghost use Rattle.std.specs.Prelude.{◌≡◌};

use crate::counting::PlaceFault;
use poets_guard::GuardFault;
use poets_lex::{LexFault, Names};
use poets_parse::SyntaxFault;
use poets_types::TypeFault;
use poets_value::Memory;

/// The first fault of a text. Statements are counted from 1.
#[derive(Debug, PartialEq, Eq, Drop)]
pub enum SessionCause {
    /// The bytes cannot be cut into tokens.
    Lex(LexFault),
    /// A statement is too deep, or no sentence.
    Syntax { statement: u64, fault: SyntaxFault },
    /// A statement may not be in its place.
    Misplaced { statement: u64 },
    /// A statement is one too many, or has the number of no clerk.
    TooMany { statement: u64 },
    /// A name is declared twice, or a statement is not typed.
    Types(TypeFault),
    /// Templates lead back to themselves with no transmission between; the statement declares the first of the cycle.
    Guard { statement: u64, fault: GuardFault },
    /// Out of memory.
    Memory,
}

/// The first fault of a text, with the texts of the names in it.
#[derive(Debug, Drop)]
pub struct SessionFault {
    pub names: Names,
    pub what: SessionCause,
}

impl From<Memory> for SessionCause {
    ghost use Rattle.std.specs.Prelude.{◌≡◌};
    ghost use Rattle.poets_session.specs.declared.fault.SessionCause.TheVariants as C;

    ghost from_gives = { λ _ cause. cause ≡ C.Memory };

    fn from(_: Memory) -> SessionCause {
        SessionCause::Memory
    }
}

impl From<LexFault> for SessionCause {
    ghost use Rattle.std.specs.Prelude.{◌≡◌};
    ghost use Rattle.poets_session.specs.Causes.{lex_cause};

    ghost from_gives = { λ fault cause. cause ≡ lex_cause fault };

    fn from(fault: LexFault) -> SessionCause {
        match fault {
            LexFault::Memory => SessionCause::Memory,
            fault => SessionCause::Lex(fault),
        }
    }
}

impl From<PlaceFault> for SessionCause {
    ghost use Rattle.std.specs.Prelude.{◌≡◌};
    ghost use Rattle.poets_session.specs.Causes.{place_cause};

    ghost from_gives = { λ fault cause. cause ≡ place_cause fault };

    fn from(fault: PlaceFault) -> SessionCause {
        match fault {
            PlaceFault::Misplaced { statement } => SessionCause::Misplaced { statement },
            PlaceFault::TooMany { statement } => SessionCause::TooMany { statement },
        }
    }
}
