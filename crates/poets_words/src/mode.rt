//! What the program may be asked to do, and the words that ask for it.
ghost use Rattle.std.specs.Prelude.{IfOk, IfSome, IfNone};
ghost use Rattle.poets_words.specs.Words.{AskFor, IsCommandForm, texts_of};
ghost use Rattle.poets_words.specs.code.Reading.{texts_found};

use crate::name::ContractName;
use crate::reading::{command, is_plain};
use crate::sales::sales_of;
use clap::error::ErrorKind;
use poets_value::Memory;
use std::alloc::Global;

/// What the program is asked to do with the text that it reads.
#[derive(Debug, Drop)]
pub enum Task<'a> {
    /// Check a book.
    Check,
    /// Run a session of clerks.
    Run,
    /// Replay a journal.
    Replay,
    /// Replay a journal, and explain the contract with a name.
    Explain(ContractName<'a>),
    /// Replay a journal, and export its book and its history.
    Export,
}

/// What the program is asked to do.
#[derive(Debug, Drop)]
pub enum Mode<'a> {
    /// Read a text, and do the task with it.
    Read(Task<'a>),
    /// Read nothing, and show a demonstration: so many sales of each of eight clerks, 1 to 1,000.
    Demo(u32),
}

/// What the words ask for, or `None` where they are no command form. The program's name is none of the words.
///
/// An `Err` is "out of memory", of which the clauses say nothing.
pub fn mode_of<'a>(alloc: Global, words: &'a [String]) -> Result<Option<Mode<'a>>, Memory>
    ensures some { IfOk result (λ found. IfSome found (AskFor (texts_of words.now))) }
    ensures none { IfOk result (λ found. IfNone found (¬ (IsCommandForm (texts_of words.now)))) }
{
    if !is_plain(words) {
        return Ok(None);
    }
    let command = command(alloc)?;
    match command.try_get_matches_from(words) {
        Ok(found) => {
            let first = found.get_str("first");
            let second = found.get_str("second");
            Ok(mode_from(first, second))
        }
        Err(error) => match error.kind() {
            ErrorKind::OutOfMemory => Err(Memory),
            _ => unreachable!(),
        },
    }
}

// What a first and a second word ask for.
fn mode_from<'a>(first: Option<&'a str>, second: Option<&'a str>) -> Option<Mode<'a>>
    ensures some { IfSome result (AskFor (texts_found first.entry second.entry)) }
    ensures none { IfNone result (¬ (IsCommandForm (texts_found first.entry second.entry))) }
{
    match (first, second) {
        (Some("check"), None) => Some(Mode::Read(Task::Check)),
        (Some("run"), None) => Some(Mode::Read(Task::Run)),
        (Some("replay"), None) => Some(Mode::Read(Task::Replay)),
        (Some("explain"), Some(name)) => Some(Mode::Read(Task::Explain(ContractName::new(name)?))),
        (Some("export"), None) => Some(Mode::Read(Task::Export)),
        (Some("demo"), Some(number)) => Some(Mode::Demo(sales_of(number)?)),
        _ => None,
    }
}
