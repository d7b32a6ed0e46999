//! Why tokens are no statement.
ghost use Rattle.std.specs.Prelude.{◌≡◌, suc, length};
ghost use Rattle.poets_grammar.specs.Tokens.{toks};
ghost use Rattle.poets_parse.specs.declared.fault.ReadFault.TheVariants as R;

use poets_lex::{LexFault, Token};
use poets_value::Memory;
use thiserror::Error;

/// Why tokens are no statement.
#[derive(Debug, Clone, Copy, PartialEq, Eq, Error)]
pub enum SyntaxFault {
    /// More brackets are open at one place, or there are more operators, than a statement may have.
    #[error("the statement is nested too deep")]
    TooDeep,

    /// No sentence of the grammar has these tokens.
    #[error("the statement is no sentence")]
    NoSentence,

    /// Out of memory.
    #[error("no memory is left")]
    Memory,
}

/// Why bytes or tokens were not read as what was sought.
#[derive(Debug, Clone, Copy, PartialEq, Eq)]
pub enum Unread {
    /// They have not the shape of it.
    Shape,

    /// Out of memory.
    Memory,
}

/// Why a reader gave up.
#[derive(Debug, Clone, Copy, PartialEq, Eq)]
pub(crate) enum ReadFault {
    /// So many tokens are left from the first one on that is not what has to be there, or none where more have to follow.
    Unfit { left: usize },

    /// Out of memory.
    Memory,
}

impl ReadFault {
    /// The first of these tokens, or their end, is not what has to stand there.
    #[tactic(auto, using(crate::proofs::Counts::as_many))]
    pub(crate) fn at(tokens: &[Token]) -> ReadFault
        ensures { result ≡ R.Unfit (length (toks tokens.now)) }
    {
        ReadFault::Unfit { left: tokens.len() }
    }

    /// The token right ahead of these is not what has to stand there.
    #[tactic(auto, using(crate::proofs::Counts::as_many))]
    pub(crate) fn ahead_of(tokens: &[Token]) -> ReadFault
        ensures { result ≡ R.Unfit (suc (length (toks tokens.now))) }
    {
        ReadFault::Unfit {
            left: tokens.len() + 1,
        }
    }
}

impl From<Memory> for ReadFault {
    ghost use Rattle.std.specs.Prelude.{◌≡◌};
    ghost use Rattle.poets_parse.specs.declared.fault.ReadFault.TheVariants as R;

    ghost from_gives = { λ _ e. e ≡ R.Memory };

    fn from(_: Memory) -> ReadFault {
        ReadFault::Memory
    }
}

impl From<ReadFault> for SyntaxFault {
    ghost use Rattle.std.specs.Prelude.{◌≡◌};
    ghost use Rattle.poets_parse.specs.code.Gives.{syntax_fault};

    ghost from_gives = { λ fault e. e ≡ syntax_fault fault };

    fn from(fault: ReadFault) -> SyntaxFault {
        match fault {
            ReadFault::Unfit { .. } => SyntaxFault::NoSentence,
            ReadFault::Memory => SyntaxFault::Memory,
        }
    }
}

impl From<Memory> for Unread {
    ghost use Rattle.std.specs.Prelude.{◌≡◌};
    ghost use Rattle.poets_parse.specs.declared.fault.Unread.TheVariants as U;

    ghost from_gives = { λ _ fault. fault ≡ U.Memory };

    fn from(_: Memory) -> Unread {
        Unread::Memory
    }
}

impl From<LexFault> for Unread {
    ghost use Rattle.std.specs.Prelude.{◌≡◌};
    ghost use Rattle.poets_parse.specs.Faults.{unread_of_lex};

    ghost from_gives = { λ fault told. told ≡ unread_of_lex fault };

    fn from(fault: LexFault) -> Unread {
        match fault {
            LexFault::Memory => Unread::Memory,
            _ => Unread::Shape,
        }
    }
}

impl From<SyntaxFault> for Unread {
    ghost use Rattle.std.specs.Prelude.{◌≡◌};
    ghost use Rattle.poets_parse.specs.Faults.{unread_of_syntax};

    ghost from_gives = { λ fault told. told ≡ unread_of_syntax fault };

    fn from(fault: SyntaxFault) -> Unread {
        match fault {
            SyntaxFault::Memory => Unread::Memory,
            SyntaxFault::TooDeep | SyntaxFault::NoSentence => Unread::Shape,
        }
    }
}
