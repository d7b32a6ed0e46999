//! Commands as the texts of calls.
ghost use Rattle.std.specs.Prelude.{◌≡◌};
ghost use Rattle.poets_stored.specs.Stored.{HasText, stored_text};

use poets_command::Command;
use poets_io::copied;
use poets_journal::Put;
use poets_lex::Names;
use poets_print::command_text;
use poets_value::{List, Memory};
use std::alloc::Global;
use std::marker::Model;

/// Gives each command its text in a journal, over the table of its names.
#[derive(Drop)]
pub struct CommandPut<'a> {
    names: &'a Names,
}

impl<'a> Model for CommandPut<'a> {
    ghost use Rattle.std.specs.Prelude.{ℕ, List};

    ghost Value = { List (List ℕ) };

    ghost view = { λ put. put.names.now };
}

impl<'a> CommandPut<'a> {
    /// Gives texts over that table.
    pub fn new(names: &'a Names) -> CommandPut<'a>
        ensures { result ≡ names.now }
    {
        CommandPut { names }
    }
}

impl<'a> Put<Command> for CommandPut<'a> {
    type Table = Names;

    ghost table = { λ names. names };

    ghost has_text = { λ names command. HasText names command };

    ghost text = { λ names clerk command. stored_text names clerk command };

    fn put(&self, alloc: Global, clerk: u32, command: &Command) -> Result<List<u8>, Memory> {
        let text = command_text(alloc, self.names, command)?;
        let numbered = format!(in alloc; "{clerk}: {text}")?;
        copied(alloc, numbered.as_bytes())
    }
}
