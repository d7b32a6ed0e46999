//! The texts of commands.
ghost use Rattle.std.specs.Prelude.{OnOk, IfOk};
ghost use Rattle.poets_command.specs.Calls.{command_of};
ghost use Rattle.poets_print.specs.Texts.{IsText, behind_commas, name_text};
ghost use Rattle.poets_print.specs.Lines.{amount_text, event_text};
ghost use Rattle.poets_print.specs.Lines as lines;
ghost use Rattle.poets_value.specs.code.Texts.{Puts};
ghost use Rattle.poets_print.specs.code.Putting.{names_text};

use crate::contracts::{put_call, put_contract};
use crate::pieces::{put, put_counted, put_day, put_name, put_named, put_number};
use poets_command::Command;
use poets_lex::Names;
use poets_value::{Event, List, Memory, Name, Resource};
use std::alloc::Global;

// Puts an amount of a kind, as `7 Oil`.
fn put_amount(out: &mut String, names: &Names, what: Resource) -> Result<(), Memory>
    ensures { OnOk result (Puts out.old out.new (amount_text names.now what)) }
{
    put_number(out, what.amount)?;
    put(out, " ")?;
    put_name(out, names, what.kind)
}

// Puts an event, as `ann bob 7 Oil @2006-05-03`.
fn put_event(out: &mut String, names: &Names, event: &Event) -> Result<(), Memory>
    ensures { OnOk result (Puts out.old out.new (event_text names.now event.now)) }
{
    put_name(out, names, event.sender)?;
    put(out, " ")?;
    put_name(out, names, event.receiver)?;
    put(out, " ")?;
    put_amount(out, names, event.what)?;
    put(out, " @")?;
    put_day(out, event.day)
}

// Puts each name after a comma.
fn put_rest(out: &mut String, names: &Names, listed: &[Name]) -> Result<(), Memory>
    ensures { OnOk result (Puts out.old out.new (behind_commas (name_text names.now) listed.now)) }
{
    for name in listed {
        put(out, ", ")?;
        put_name(out, names, *name)?;
    }
    Ok(())
}

// Puts names with commas between them.
fn put_names(out: &mut String, names: &Names, listed: &List<Name>) -> Result<(), Memory>
    ensures { OnOk result (Puts out.old out.new (names_text names.now listed.now.items)) }
{
    if let [first, rest @ ..] = listed.as_slice() {
        put_name(out, names, *first)?;
        return put_rest(out, names, rest);
    }
    Ok(())
}

/// Puts a command.
pub(crate) fn put_command(out: &mut String, names: &Names, command: &Command) -> Result<(), Memory>
    ensures { OnOk result (Puts out.old out.new (lines.command_text names.now (command_of command.now))) }
{
    match command {
        Command::Register { name, term } => {
            put_named(out, names, "register ", *name)?;
            put(out, " = ")?;
            put_contract(out, names, term)
        }
        Command::Transmit { name, event } => {
            put_named(out, names, "transmit ", *name)?;
            put(out, " ")?;
            put_event(out, names, event)
        }
        Command::Void { name, place } => {
            put_named(out, names, "void ", *name)?;
            put_counted(out, " ", *place)
        }
        Command::End { name } => put_named(out, names, "end ", *name),
        Command::Show { name } => put_named(out, names, "show ", *name),
        Command::Tally { report, args } => {
            put(out, "tally ")?;
            put_call(out, names, *report, args)
        }
        Command::Portfolio { report, args, over } => {
            put(out, "portfolio ")?;
            put_call(out, names, *report, args)?;
            put(out, " over ")?;
            put_names(out, names, over)
        }
        Command::Watch { report, args } => {
            put(out, "watch ")?;
            put_call(out, names, *report, args)
        }
        Command::Read { number } => put_counted(out, "read ", *number),
    }
}

/// The text of a command.
///
/// A name that the table does not have prints as nothing.
pub fn command_text(alloc: Global, names: &Names, command: &Command) -> Result<String, Memory>
    ensures { IfOk result (IsText (lines.command_text names.now (command_of command.now))) }
{
    let mut text = String::new(alloc);
    put_command(&mut text, names, command)?;
    Ok(text)
}
