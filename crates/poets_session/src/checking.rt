//! Types and guardedness of the statements of a session.
ghost use Rattle.std.specs.Prelude.{◌≡◌, IfSome, IfNone, IfOk, IfErr};
ghost use Rattle.poets_syntax.specs.Book.{book_of};
ghost use Rattle.poets_syntax.specs.Checked.{IsChecked};
ghost use Rattle.poets_meaning.specs.Guarded.{IsGuarded};
ghost use Rattle.poets_command.specs.Statements.{statement_of, statements_of};
ghost use Rattle.poets_command.specs.Declarations.{book_from};
ghost use Rattle.poets_command.specs.StatementDemands.{AreTypedStatements};
ghost use Rattle.poets_types.specs.Verdicts.{HasReportsOf};
ghost use Rattle.poets_session.specs.code.Checking.{NoneDeclares, TellsTypes, IsGuardRefusal};
ghost use Rattle.poets_session.specs.code.Checking as checking;
ghost use Rattle.poets_session.specs.Refusals.{IsTemplateAt};
ghost use Rattle.poets_session.specs.Causes.{IsCauseOf, type_cause};

use crate::SessionCause;
use poets_command::Statement;
use poets_guard::{GuardFault, study};
use poets_meaning::Studied;
use poets_syntax::Book;
use poets_types::{Checked, TypeCause, TypeFault, check_book};
use poets_value::Name;
use std::alloc::Global;

// The cause that tells the first statement that is not typed.
fn cause_of(fault: TypeFault) -> SessionCause
    ensures { result ≡ type_cause fault }
{
    match fault.cause {
        TypeCause::Memory => SessionCause::Memory,
        _ => SessionCause::Types(fault),
    }
}

/// Checks the types of all statements.
pub(crate) fn check_types(alloc: Global, statements: &[Statement]) -> Result<Checked, SessionCause>
    ensures passes { IfOk result (λ _. AreTypedStatements (statements_of statements.now)) }
    ensures book { IfOk result (λ c. book_of c.book ≡ book_from (statements_of statements.now)) }
    ensures reports { IfOk result (HasReportsOf (statements_of statements.now)) }
    ensures checked { IfOk result (λ c. IsChecked (book_of c.book)) }
    ensures fault { IfErr result (TellsTypes (statements_of statements.now)) }
{
    match check_book(alloc, statements) {
        Ok(checked) => Ok(checked),
        Err(fault) => Err(cause_of(fault)),
    }
}

// Whether the statement declares the template.
fn declares(statement: &Statement, name: Name) -> bool
    ensures { result ≡ checking.declares name (statement_of statement.now) }
{
    match statement {
        Statement::Template(template) => template.name == name,
        _ => false,
    }
}

// The number of the statement that declares the template, if there is one.
fn number_of(statements: &[Statement], name: Name) -> Option<u64>
    ensures found { IfSome result (λ n. IsTemplateAt (statements_of statements.now) n name) }
    ensures none { IfNone result (NoneDeclares name statements.now) }
{
    for (place, statement) in statements.iter().enumerate() {
        if declares(statement, name) {
            return Some(place as u64 + 1);
        }
    }
    None
}

/// Studies the book of the statements.
pub(crate) fn study_book(
    alloc: Global,
    book: Book,
    statements: &[Statement],
) -> Result<Studied, SessionCause>
    requires checked { IsChecked (book_of book) }
    requires book { book_of book ≡ book_from (statements_of statements.now) }
    ensures book { IfOk result (λ s. s.book ≡ book) }
    ensures guarded { IfOk result (λ _. IsGuarded (book_from (statements_of statements.now))) }
    ensures unguarded { IfErr result (IsCauseOf (IsGuardRefusal (statements_of statements.now))) }
{
    let cycle = match study(alloc, book) {
        Ok(studied) => return Ok(studied),
        Err(GuardFault::Memory) => return Err(SessionCause::Memory),
        Err(GuardFault::Unguarded { cycle }) => cycle,
    };
    let Some(first) = cycle.get(0) else {
        unreachable!();
    };
    let Some(statement) = number_of(statements, *first) else {
        unreachable!();
    };
    Err(SessionCause::Guard {
        statement,
        fault: GuardFault::Unguarded { cycle },
    })
}
