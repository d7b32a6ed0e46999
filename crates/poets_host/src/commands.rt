//! Commands that are made from values.
ghost use Rattle.std.specs.Prelude.{◌≡◌, pos, IfOk};
ghost use Rattle.std.specs.Arc.{arc_value};
ghost use Rattle.poets_value.specs.Whole.{IsWholeEvent};
ghost use Rattle.poets_command.specs.Calls.{command_of};
ghost use Rattle.poets_command.specs.Taken.{IsWholeCommand};
ghost use Rattle.poets_engine.specs.Takes.{IsTakenBy};
ghost use Rattle.poets_host.specs.Commands.{sale_of};

use poets_command::Command;
use poets_engine::Engine;
use poets_expr::Expr;
use poets_syntax::Term;
use poets_types::{TypeCause, check_call};
use poets_value::{Day, Event, List, Memory, Name, Resource, push};
use std::alloc::Global;
use std::sync::Arc;

/// The registration of a contract: the template of that name, for so many units.
pub fn registration(
    alloc: Global,
    contract: Name,
    template: Name,
    units: u32,
) -> Result<Command, Memory>
    ensures command { IfOk result (λ c. command_of c ≡ sale_of contract template units) }
    ensures whole { IfOk result (λ c. IsWholeCommand (command_of c)) }
{
    let mut args = List::new(alloc);
    push(&mut args, Expr::Int(units as i64))?;
    let term = Term::App {
        name: template,
        args,
    };
    Ok(Command::Register {
        name: contract,
        term: Arc::new(alloc, term)?,
    })
}

/// So many units of a kind, handed over on a day.
pub fn handed(sender: Name, receiver: Name, kind: Name, units: u32, day: Day) -> Event
    ensures event { result ≡ record {
      sender = sender;
      receiver = receiver;
      what = record { kind = kind; amount = pos units };
      day = day;
    } }
    ensures whole { IsWholeEvent result }
{
    // A day is one of those from 0001-01-01 to 9999-12-31.
    let _number = day.number();
    Event {
        sender,
        receiver,
        what: Resource {
            kind,
            amount: units as i64,
        },
        day,
    }
}

/// The command, once it is checked against the engine's book, as those of a text are.
pub fn checked(alloc: Global, engine: &Engine, command: Command) -> Result<Arc<Command>, TypeCause>
    requires whole { IsWholeCommand (command_of command) }
    ensures command { IfOk result (λ c. arc_value c ≡ command) }
    ensures taken { IfOk result (λ c. IsTakenBy engine.now.rules (command_of (arc_value c))) }
{
    let book = engine.studied().book();
    check_call(alloc, book, engine.reports().as_slice(), &command)?;
    match Arc::new(alloc, command) {
        Ok(command) => Ok(command),
        Err(_) => Err(TypeCause::Memory),
    }
}
