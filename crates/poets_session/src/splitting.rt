//! The statements of a text.
ghost use Rattle.std.specs.Prelude.{◌≡◌, IfOk, IfErr};
ghost use Rattle.poets_grammar.specs.Tokens.{toks, AreNatural};
ghost use Rattle.poets_session.specs.Pieces.{pieces_of};
ghost use Rattle.poets_session.specs.Refusals.{IsUnread, IsStopped};
ghost use Rattle.poets_session.specs.Causes.{IsCauseOf, syntax_cause};
ghost use Rattle.poets_session.specs.code.Splitting.{piece, Says, Say, TellsUnended};

use crate::SessionCause;
use crate::pieces::first_piece;
use poets_command::Statement;
use poets_lex::Token;
use poets_parse::{SyntaxFault, is_too_deep, statement};
use poets_value::{List, push};
use std::alloc::Global;

// Why a statement without a `;;` is none.
fn unended(tokens: &[Token]) -> SyntaxFault
    ensures { TellsUnended (toks tokens.now) result }
{
    if is_too_deep(tokens) {
        SyntaxFault::TooDeep
    } else {
        SyntaxFault::NoSentence
    }
}

// The cause that tells why a statement was not read.
fn cause_of(number: u64, fault: SyntaxFault) -> SessionCause
    ensures { result ≡ syntax_cause number fault }
{
    match fault {
        SyntaxFault::Memory => SessionCause::Memory,
        SyntaxFault::TooDeep | SyntaxFault::NoSentence => SessionCause::Syntax {
            statement: number,
            fault,
        },
    }
}

// What the statement with the number says.
fn read_statement(
    alloc: Global,
    number: u64,
    tokens: &[Token],
    ended: bool,
) -> Result<Statement, SessionCause>
    requires { AreNatural tokens.now }
    ensures said { IfOk result (Says (piece (toks tokens.now) ended)) }
    ensures unread { IfErr result (IsCauseOf (IsUnread (piece (toks tokens.now) ended) number)) }
{
    if !ended {
        return Err(SessionCause::Syntax {
            statement: number,
            fault: unended(tokens),
        });
    }
    match statement(alloc, tokens) {
        Ok(statement) => Ok(statement),
        Err(fault) => Err(cause_of(number, fault)),
    }
}

/// The statements of a text.
pub(crate) fn statements(alloc: Global, tokens: &[Token]) -> Result<List<Statement>, SessionCause>
    requires { AreNatural tokens.now }
    ensures said { IfOk result (Say (pieces_of (toks tokens.now))) }
    ensures stopped { IfErr result (IsCauseOf (IsStopped (pieces_of (toks tokens.now)))) }
{
    let mut found = List::new(alloc);
    let mut rest = tokens;
    while !rest.is_empty() {
        let (piece, ended, after) = first_piece(rest);
        let number = found.len() as u64 + 1;
        push(&mut found, read_statement(alloc, number, piece, ended)?)?;
        rest = after;
    }
    Ok(found)
}
