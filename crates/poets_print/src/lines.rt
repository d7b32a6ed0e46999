//! The lines of a history.
ghost use Rattle.std.specs.Prelude.{IfOk};
ghost use Rattle.poets_command.specs.Calls.{entry_of};
ghost use Rattle.poets_print.specs.Texts.{IsText};
ghost use Rattle.poets_print.specs.Lines as lines;

use crate::commands::put_command;
use crate::pieces::{put, put_count};
use crate::replies::put_reply;
use poets_command::Entry;
use poets_lex::Names;
use poets_value::Memory;
use std::alloc::Global;

/// The line of the entry with that number in a history, with its line feed.
///
/// A name that the table does not have prints as nothing.
pub fn line_text(alloc: Global, names: &Names, number: u64, entry: &Entry) -> Result<String, Memory>
    ensures { IfOk result (IsText (lines.line_text names.now number (entry_of entry.now))) }
{
    let mut text = String::new(alloc);
    put_count(&mut text, number)?;
    put(&mut text, " ")?;
    put_count(&mut text, entry.clerk as u64)?;
    put(&mut text, ": ")?;
    put_command(&mut text, names, &*entry.command)?;
    put(&mut text, " => ")?;
    put_reply(&mut text, names, &entry.reply)?;
    put(&mut text, "\n")?;
    Ok(text)
}
