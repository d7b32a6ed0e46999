//! Texts read as calls, of which it is not yet known whether they are typed.
ghost use Rattle.std.specs.Prelude.{◌≡◌, ◌+◌, ◌≤◌, ◌<◌, ◌^◌, length, Err, IfOk, IfSome, IfNone};
ghost use Rattle.poets_value.specs.Limits.{longest_text};
ghost use Rattle.poets_lex.specs.Table.{Extends};
ghost use Rattle.poets_grammar.specs.Tokens.{toks, AreNatural};
ghost use Rattle.poets_command.specs.Calls.{command_of};
ghost use Rattle.poets_command.specs.Said.{Numbered};
ghost use Rattle.poets_command.specs.Statements.{statement_of};
ghost use Rattle.poets_recover.specs.Stored.{bytes_in};
ghost use Rattle.poets_recover.specs.code.Reading.{IsUnnumbered, AreTokensOf, AreTokensOfNone, SaysCallOf, SaysNone};
ghost use Rattle.poets_recover.specs.code.Reading.{AreRead};

use crate::limits::MOST_STORED;
use poets_command::{Command, Statement};
use poets_lex::{Names, Token, tokens};
use poets_parse::{Unread, statement_stored};
use poets_value::{List, MOST_CLERKS, Memory, push};
use std::alloc::Global;
use std::sync::Arc;

// The clerk's number and the command, if the statement has a number.
fn numbered(statement: Statement) -> Option<(u64, Command)>
    ensures some { IfSome result (λ call. statement_of statement ≡ Numbered call.0 (command_of call.1)) }
    ensures none { IfNone result (IsUnnumbered (statement_of statement)) }
{
    match statement {
        Statement::Numbered(clerk, command) => Some((clerk, command)),
        _ => None,
    }
}

// The call that the tokens of a text say.
fn call_of(alloc: Global, tokens: &[Token]) -> Result<(u32, Arc<Command>), Unread>
    requires { AreNatural tokens.now }
    ensures said { IfOk result (AreTokensOf (toks tokens.now)) }
    ensures none { result ≡ Err Unread.Shape → AreTokensOfNone (toks tokens.now) }
{
    let statement = statement_stored(alloc, tokens)?;
    let Some((clerk, command)) = numbered(statement) else {
        return Err(Unread::Shape);
    };
    if clerk < 1 || clerk > MOST_CLERKS {
        return Err(Unread::Shape);
    }
    let Ok(command) = Arc::new(alloc, command) else {
        return Err(Unread::Memory);
    };
    Ok((clerk as u32, command))
}

// The call that the text says.
fn read_call(alloc: Global, names: &mut Names, text: &[u8]) -> Result<(u32, Arc<Command>), Unread>
    requires { length text.now + length names.old < 2 ^ 32 }
    ensures said { IfOk result (SaysCallOf names.old text.now names.new) }
    ensures none { result ≡ Err Unread.Shape → SaysNone names.old text.now }
    ensures names { Extends names.old names.new }
    ensures few { length names.new ≤ length names.old + length text.now }
{
    let tokens = tokens(alloc, text, names)?;
    call_of(alloc, tokens.as_slice())
}

/// The calls that the texts say, up to the first text that says none or brings their bytes past the most.
pub(crate) fn read_calls(
    alloc: Global,
    names: &mut Names,
    texts: &[List<u8>],
) -> Result<List<(u32, Arc<Command>)>, Memory>
    requires { length names.old ≤ longest_text }
    ensures read { IfOk result (AreRead names.old (bytes_in texts.now) names.new) }
    ensures names { Extends names.old names.new }
{
    let mut calls = List::new(alloc);
    let mut room = MOST_STORED;
    for text in texts {
        let text = text.as_slice();
        if room < text.len() {
            return Ok(calls);
        }
        room -= text.len();
        match read_call(alloc, names, text) {
            Ok(call) => push(&mut calls, call)?,
            Err(Unread::Shape) => return Ok(calls),
            Err(Unread::Memory) => return Err(Memory),
        }
    }
    Ok(calls)
}
