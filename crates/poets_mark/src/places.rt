//! The places of faults.
ghost use Rattle.std.specs.Prelude.{◌≡◌, ◌≤◌, length, unwrap_or, IfOk};
ghost use Rattle.poets_value.specs.Limits.{longest_text};
ghost use Rattle.poets_mark.specs.Places.{first_place, IsBeginOf, IsStopOf, IsWithin, IsNamePlace, IsTypePlace};
ghost use Rattle.poets_mark.specs.Places.{IsPlaceOf};

use crate::naming::{all_said, faulty_token};
use crate::pieces::from_statement;
use crate::typing::mistyped;
use poets_lex::{LexFault, Names, Token, tokens};
use poets_parse::{SyntaxFault, begun};
use poets_session::{SessionCause, ahead_of_end};
use poets_types::{TypeCause, TypeFault};
use poets_value::{Memory, Name};
use std::alloc::Global;

// Where the first token stands, or else the end of the text.
fn place_of_first(tokens: &[Token], text: &[u8]) -> usize
    ensures { result ≡ unwrap_or (first_place tokens.now) (length text.now) }
{
    match tokens {
        [] => text.len(),
        [first, ..] => first.from as usize,
    }
}

// Where the statement with the number begins, or the end of the text where there is none.
fn begin_of(alloc: Global, text: &[u8], number: u64) -> Result<usize, Memory>
    requires { length text.now ≤ longest_text }
    ensures { IfOk result (IsBeginOf text.now number) }
{
    let mut names = Names::new(alloc);
    let Ok(tokens) = tokens(alloc, text, &mut names) else {
        return Err(Memory);
    };
    let rest = from_statement(tokens.as_slice(), number);
    Ok(place_of_first(rest, text))
}

// Where the tokens of the statement with the number stop beginning a sentence: at the first one that cannot follow
// those before it, or after them all.
fn stop_of(alloc: Global, text: &[u8], number: u64) -> Result<usize, Memory>
    requires { length text.now ≤ longest_text }
    ensures { IfOk result (IsStopOf text.now number) }
{
    let mut names = Names::new(alloc);
    let Ok(tokens) = tokens(alloc, text, &mut names) else {
        return Err(Memory);
    };
    let rest = from_statement(tokens.as_slice(), number);
    let count = begun(alloc, ahead_of_end(rest))?;
    Ok(place_of_first(&rest[count..], text))
}

// Where the name that the fault tells stands in its statement, or where that begins, if it does not have the name.
fn name_place(alloc: Global, text: &[u8], fault: &TypeFault, name: Name) -> Result<usize, Memory>
    requires { length text.now ≤ longest_text }
    ensures { IfOk result (IsNamePlace text.now fault.now.statement name) }
{
    let mut names = Names::new(alloc);
    let Ok(found) = tokens(alloc, text, &mut names) else {
        return Err(Memory);
    };
    let all = found.as_slice();
    let rest = from_statement(all, fault.statement);
    let own = ahead_of_end(rest);
    let other = Name { id: names.len() };
    let Some(place) = faulty_token(alloc, all, own, fault, name, other)? else {
        return Ok(place_of_first(rest, text));
    };
    Ok(own[place].from as usize)
}

// Where the expression of the wrong type begins, or else its statement.
fn expression_place(alloc: Global, text: &[u8], number: u64) -> Result<usize, Memory>
    requires { length text.now ≤ longest_text }
    ensures { IfOk result (IsWithin text.now number) }
{
    let mut names = Names::new(alloc);
    let Ok(all) = tokens(alloc, text, &mut names) else {
        return Err(Memory);
    };
    let rest = from_statement(all.as_slice(), number);
    let own = ahead_of_end(rest);
    let statements = all_said(alloc, all.as_slice())?;
    match mistyped(alloc, statements.as_slice(), number, own)? {
        Some(place) if place < own.len() => Ok(place_of_first(&rest[place..], text)),
        _ => Ok(place_of_first(rest, text)),
    }
}

// Where a fault of names or types stands.
fn type_place(alloc: Global, text: &[u8], fault: &TypeFault) -> Result<usize, Memory>
    requires { length text.now ≤ longest_text }
    ensures { IfOk result (IsTypePlace text.now fault.now.statement fault.now.cause) }
{
    match fault.cause {
        TypeCause::Twice { name }
        | TypeCause::Unknown { name }
        | TypeCause::WrongCount { name, .. } => name_place(alloc, text, fault, name),
        TypeCause::WrongType { .. } => expression_place(alloc, text, fault.statement),
        TypeCause::Memory => Err(Memory),
    }
}

/// Where a fault of the text stands: at the byte or the name that it tells, or where its statement begins; for
/// `NoSentence` where the tokens stop beginning a sentence, and for `WrongType` in the statement (`docs/LANGUAGE.md`,
/// "Refused texts"). Bytes are counted from 0. `Err` is "out of memory", also where the fault is that.
pub(crate) fn place_of(alloc: Global, text: &[u8], cause: &SessionCause) -> Result<usize, Memory>
    requires { length text.now ≤ longest_text }
    ensures { IfOk result (IsPlaceOf text.now cause.now) }
{
    match cause {
        SessionCause::Lex(
            LexFault::BadByte { at } | LexFault::LongNumber { at } | LexFault::LongName { at },
        ) => Ok(*at as usize),
        SessionCause::Syntax {
            statement,
            fault: SyntaxFault::NoSentence,
        } => stop_of(alloc, text, *statement),
        SessionCause::Syntax { statement, .. }
        | SessionCause::Misplaced { statement }
        | SessionCause::TooMany { statement }
        | SessionCause::Guard { statement, .. } => begin_of(alloc, text, *statement),
        SessionCause::Types(fault) => type_place(alloc, text, fault),
        SessionCause::Lex(LexFault::Memory) | SessionCause::Memory => Err(Memory),
    }
}
