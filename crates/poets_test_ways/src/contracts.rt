//! The book in which contracts are worked out, and the event that comes.
ghost use Rattle.std.specs.Prelude.{IfOk, IsTrue};
ghost use Rattle.poets_syntax.specs.Applied.{CountsFit};
ghost use Rattle.poets_syntax.specs.Book.{book_of};
ghost use Rattle.poets_syntax.specs.Checked.{IsChecked};
ghost use Rattle.poets_syntax.specs.Contract.{contract_of};

use crate::sentences::{sentence, statements};
use poets_command::{Command, Statement};
use poets_guard::{GuardFault, study};
use poets_meaning::Studied;
use poets_syntax::{Book, Term};
use poets_types::check_book;
use poets_value::{Event, Memory};
use std::alloc::Global;

const BOOK: [&str; 5] = [
    "agents ann, bob",
    "kinds Oil, USD",
    "template f(n: Int) = transmit(a, b, r, t | true). Success",
    "template g() = Failure",
    "template count(n: Int) = Success + transmit(a, b, r, t | amount(r) = n). count(n + 1)",
];

// The book of these statements, which are checked.
fn checked(alloc: Global, texts: &[&str]) -> Result<Book, Memory>
    ensures { IfOk result (λ book. IsChecked (book_of book)) }
{
    let statements = statements(alloc, texts)?;
    let Ok(checked) = check_book(alloc, statements.as_slice()) else {
        return Err(Memory);
    };
    Ok(checked.book)
}

/// The study of the book of these statements.
pub(crate) fn studied(alloc: Global, texts: &[&str]) -> Result<Studied, GuardFault> {
    study(alloc, checked(alloc, texts)?)
}

/// The book of the templates f, g and count.
pub(crate) fn book(alloc: Global) -> Result<Studied, Memory> {
    studied(alloc, &BOOK).or(Err(Memory))
}

// The event of a transmission.
fn event_of(said: &Statement) -> Result<Event, Memory> {
    match said {
        Statement::Command(Command::Transmit { event, .. }) => Ok(*event),
        _ => Err(Memory),
    }
}

/// The event that ann gives bob so much oil.
pub(crate) fn delivered(alloc: Global, amount: u64) -> Result<Event, Memory> {
    let text = format!(in alloc; "transmit c ann bob {amount} Oil @2006-01-01")?;
    event_of(&sentence(alloc, &text)?)
}

/// Whether each application of a template has as many arguments as the template has parameters.
pub(crate) fn fits(studied: &Studied, term: &Term) -> bool
    ensures { IsTrue result → CountsFit (book_of studied.now.book) (contract_of term.now) }
{
    match term {
        Term::Success | Term::Failure => true,
        Term::Transmit { then, .. } => fits(studied, then),
        Term::Plus(a, b) | Term::Par(a, b) | Term::Seq(a, b) => {
            fits(studied, a) && fits(studied, b)
        }
        Term::App { name, args } => match studied.template(*name) {
            None => true,
            Some((template, _)) => template.params.len() == args.len(),
        },
    }
}
