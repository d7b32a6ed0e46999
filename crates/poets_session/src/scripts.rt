//! The commands of a session: the scripts of its clerks, and the calls of its journal.
ghost use Rattle.std.specs.Prelude.{◌≡◌, IfOk, All};
ghost use Rattle.poets_command.specs.Statements.{statement_of, statements_of};
ghost use Rattle.poets_session.specs.code.Scripts.{HasShortNumber, HasScripts, HasJournal, AddsToScripts};
ghost use Rattle.poets_session.specs.code.Scripts.{AddsToJournal, command_statement};

use poets_command::{Command, Statement};
use poets_value::{List, Memory, push};
use std::alloc::Global;
use std::sync::Arc;

/// The scripts of the clerks, and the calls of the journal.
#[derive(Drop)]
pub(crate) struct Calls {
    pub(crate) scripts: List<List<Arc<Command>>>,
    pub(crate) journal: List<(u32, Arc<Command>)>,
}

impl Calls {
    // Adds a command to the last script; ahead of the first script it is nobody's.
    #[tactic(auto, using(crate::proofs::Scripting::script_more, crate::proofs::Scripting::no_script))]
    fn add_command(&mut self, command: Arc<Command>) -> Result<(), Memory>
        ensures scripts { AddsToScripts self.old self.new (command_statement command) result }
        ensures journal { self.new.journal ≡ self.old.journal }
    {
        let Some(mut script) = self.scripts.pop() else {
            return Ok(());
        };
        push(&mut script, command)?;
        push(&mut self.scripts, script)
    }

    // Adds what the statement says.
    #[tactic(auto, using(crate::proofs::Scripting::script_new, crate::proofs::Scripting::scripts_kept))]
    fn add(&mut self, alloc: Global, statement: Statement) -> Result<(), Memory>
        requires { HasShortNumber (statement_of statement) }
        ensures scripts { AddsToScripts self.old self.new (statement_of statement) result }
        ensures journal { AddsToJournal self.old self.new (statement_of statement) result }
    {
        match statement {
            Statement::Clerk => push(&mut self.scripts, List::new(alloc)),
            Statement::Command(command) => self.add_command(Arc::new(alloc, command)?),
            Statement::Numbered(clerk, command) => {
                push(&mut self.journal, (clerk as u32, Arc::new(alloc, command)?))
            }
            _ => Ok(()),
        }
    }
}

/// The scripts and the journal of the statements.
pub(crate) fn calls_in(alloc: Global, statements: List<Statement>) -> Result<Calls, Memory>
    requires clerks { All HasShortNumber (statements_of statements.items) }
    ensures scripts { IfOk result (HasScripts (statements_of statements.items)) }
    ensures journal { IfOk result (HasJournal (statements_of statements.items)) }
{
    let mut calls = Calls {
        scripts: List::new(alloc),
        journal: List::new(alloc),
    };
    for statement in statements.into_vec() {
        calls.add(alloc, statement)?;
    }
    Ok(calls)
}
