//! Types of commands, and of contracts by themselves.
ghost use Rattle.std.specs.Prelude.{◌≡◌, IfOk, IfErr};
ghost use Rattle.poets_expr.specs.Env.{declared_of};
ghost use Rattle.poets_command.specs.Calls.{command_of};
ghost use Rattle.poets_command.specs.TypedStatements as spec;
ghost use Rattle.poets_types.specs.Calls.{AreTypedCalls, IsFirstCallFault};
ghost use Rattle.poets_types.specs.Verdicts.{CommandIsTyped, TermIsTyped, IsFaultOfCommand, IsFaultOfTerm};
ghost use Rattle.poets_types.specs.code.Answers.{answer_of};
ghost use Rattle.poets_types.specs.code.Checks.{arguments_verdict, with_reports};

use crate::contract::{check_arguments, check_contract};
use crate::expression::{must_be, name_type};
use crate::index::Index;
use crate::scope::Scope;
use crate::{CallFault, TypeCause};
use poets_command::{Command, named_report};
use poets_expr::{Decls, Expr};
use poets_report::Report;
use poets_syntax::{Book, Term};
use poets_value::{Event, Name, Ty};
use std::alloc::Global;
use std::sync::Arc;

// The name is declared as the wanted one of an agent and a kind.
fn check_declared(decls: &Decls, wanted: Ty, name: Name) -> Result<(), TypeCause>
    ensures { result ≡ answer_of (spec.check_declared (declared_of decls.now.names) wanted name) }
{
    let found = name_type(name, decls.names.get(&name).copied())?;
    must_be(wanted, found)
}

// The event's agents and its kind are declared as such.
fn check_event(decls: &Decls, event: &Event) -> Result<(), TypeCause>
    ensures { result ≡ answer_of (spec.check_event (declared_of decls.now.names) event.now) }
{
    check_declared(decls, Ty::Agent, event.sender)?;
    check_declared(decls, Ty::Agent, event.receiver)?;
    check_declared(decls, Ty::Kind, event.what.kind)
}

// The arguments are those that a report of that name takes.
fn check_report_arguments(
    decls: &Decls,
    reports: &[Report],
    name: Name,
    args: &[Expr],
) -> Result<(), TypeCause>
    ensures { result ≡ answer_of (arguments_verdict decls.now reports.now name args.now) }
{
    match named_report(reports, name) {
        None => Err(TypeCause::Unknown { name }),
        Some(report) => {
            check_arguments(decls, &Scope::Empty, name, report.params.as_slice(), args)
        }
    }
}

// The command is typed.
pub(crate) fn check_command(index: &Index, command: &Command) -> Result<(), TypeCause>
    ensures { result ≡ answer_of (with_reports index.now spec.check_command (command_of command.now)) }
{
    let decls = &index.book.decls;
    match command {
        Command::Register { term, .. } => check_contract(index, &Scope::Empty, term),
        Command::Transmit { event, .. } => check_event(decls, event),
        Command::Tally { report, args }
        | Command::Portfolio { report, args, .. }
        | Command::Watch { report, args } => {
            check_report_arguments(decls, index.reports, *report, args.as_slice())
        }
        Command::Void { .. } | Command::End { .. } | Command::Show { .. } | Command::Read { .. } =>
            Ok(()),
    }
}

/// Checks a contract without parameters in a book with these reports. An error is its first fault.
pub fn check_term(
    alloc: Global,
    book: &Book,
    reports: &[Report],
    term: &Term,
) -> Result<(), TypeCause>
    ensures passes { IfOk result (λ _. TermIsTyped book.now reports.now term.now) }
    ensures fault { IfErr result (IsFaultOfTerm book.now reports.now term.now) }
{
    let index = Index::new(alloc, book, reports)?;
    check_contract(&index, &Scope::Empty, term)
}

/// Checks a command in a book with these reports. An error is its first fault. For the commands of a session
/// `check_book` is faster, because it looks over the book only once.
pub fn check_call(
    alloc: Global,
    book: &Book,
    reports: &[Report],
    command: &Command,
) -> Result<(), TypeCause>
    ensures passes { IfOk result (λ _. CommandIsTyped book.now reports.now command.now) }
    ensures fault { IfErr result (IsFaultOfCommand book.now reports.now command.now) }
{
    let index = Index::new(alloc, book, reports)?;
    check_command(&index, command)
}

/// Checks the commands of calls in a book with these reports, looking over the book once. An error is the first call
/// that is not typed.
pub fn check_calls(
    alloc: Global,
    book: &Book,
    reports: &[Report],
    calls: &[(u32, Arc<Command>)],
) -> Result<(), CallFault>
    ensures passes { IfOk result (λ _. AreTypedCalls book.now reports.now calls.now) }
    ensures fault { IfErr result (IsFirstCallFault book.now reports.now calls.now) }
{
    let index = Index::new(alloc, book, reports)?;
    for (place, call) in calls.iter().enumerate() {
        if let Err(cause) = check_command(&index, &call.1) {
            return Err(CallFault { place, cause });
        }
    }
    Ok(())
}
