//! Books of statements.
ghost use Rattle.std.specs.Prelude.{◌≡◌, None, IfOk, IfErr, map};
ghost use Rattle.poets_syntax.specs.Book.{template_of, book_of};
ghost use Rattle.poets_command.specs.Statements.{statement_of, statements_of};
ghost use Rattle.poets_command.specs.Declarations.{book_from};
ghost use Rattle.poets_command.specs.StatementDemands.{AreTypedStatements};
ghost use Rattle.poets_command.specs.TypedStatements as spec;
ghost use Rattle.poets_types.specs.Faults.{IsFirstFault};
ghost use Rattle.poets_types.specs.Verdicts.{HasReportsOf, IsCheckedWithReports};
ghost use Rattle.poets_types.specs.code.Answers.{IsAnswerOf, IsToldFirst};
ghost use Rattle.poets_types.specs.code.Checks.{mistyped_in, with_reports};
ghost use Rattle.poets_types.specs.code.Gathering.{AddsNames, AddsReport, AddsTemplate, AreDeclared};

use crate::command::check_command;
use crate::declared::check_names;
use crate::index::Index;
use crate::table::enter;
use crate::template::{check_report, check_template};
use crate::{TypeCause, TypeFault};
use poets_command::Statement;
use poets_expr::Decls;
use poets_report::Report;
use poets_syntax::build::copy_params;
use poets_syntax::{Book, Template};
use poets_value::{List, Memory, Name, Ty, push};
use std::alloc::Global;
use std::collections::BTreeMap;

/// What typed statements declare.
#[derive(Debug, PartialEq, Eq, Drop)]
pub struct Checked {
    /// The agents, the kinds and the templates.
    pub book: Book,
    pub reports: List<Report>,
}

// Declares the names that are not declared yet.
fn declare(decls: &mut Decls, names: &[Name], ty: Ty) -> Result<(), Memory>
    ensures { IfOk result (λ _. AreDeclared (map (λ y. (y, ty)) names.now) decls.old decls.new) }
{
    for name in names {
        enter(&mut decls.names, *name, ty)?;
    }
    Ok(())
}

// The same template.
fn copy_template(alloc: Global, template: &Template) -> Result<Template, Memory>
    ensures { IfOk result (λ t. template_of t ≡ template_of template.now) }
{
    Ok(Template {
        name: template.name,
        params: copy_params(alloc, &template.params)?,
        body: poets_syntax::copy(alloc, &template.body)?,
    })
}

// Adds what a statement declares.
fn add(alloc: Global, checked: &mut Checked, statement: &Statement) -> Result<(), Memory>
    ensures declared { IfOk result (λ _. AddsNames statement.now checked.old checked.new) }
    ensures templates { IfOk result (λ _. AddsTemplate statement.now checked.old checked.new) }
    ensures reports { IfOk result (λ _. AddsReport statement.now checked.old checked.new) }
{
    match statement {
        Statement::Agents(names) => {
            declare(&mut checked.book.decls, names.as_slice(), Ty::Agent)
        }
        Statement::Kinds(names) => declare(&mut checked.book.decls, names.as_slice(), Ty::Kind),
        Statement::Template(template) => {
            let template = copy_template(alloc, template)?;
            push(&mut checked.book.templates, template)
        }
        Statement::Report(report) => {
            let report = poets_report::copy(alloc, report)?;
            push(&mut checked.reports, report)
        }
        _ => Ok(()),
    }
}

// What the statements declare.
fn gather(alloc: Global, statements: &[Statement]) -> Result<Checked, Memory>
    ensures book { IfOk result (λ c. book_of c.book ≡ book_from (statements_of statements.now)) }
    ensures reports { IfOk result (HasReportsOf (statements_of statements.now)) }
{
    let mut checked = Checked {
        book: Book {
            decls: Decls {
                names: BTreeMap::new(alloc),
            },
            templates: List::new(alloc),
        },
        reports: List::new(alloc),
    };
    for statement in statements {
        add(alloc, &mut checked, statement)?;
    }
    Ok(checked)
}

// The statement is typed in the book.
#[tactic(auto, using(crate::proofs::Checks::answer_told))]
fn check_statement(alloc: Global, index: &Index, statement: &Statement) -> Result<(), TypeCause>
    ensures { IsAnswerOf (with_reports index.now spec.check_statement (statement_of statement.now)) result }
{
    match statement {
        Statement::Template(template) => check_template(alloc, index, template),
        Statement::Report(report) => check_report(alloc, index, report),
        Statement::Command(command) | Statement::Numbered(_, command) => {
            check_command(index, command)
        }
        Statement::Agents(_) | Statement::Kinds(_) | Statement::Clerk | Statement::Journal => {
            Ok(())
        }
    }
}

// The statements are typed in the book.
fn check_statements(
    alloc: Global,
    book: &Book,
    reports: &[Report],
    statements: &[Statement],
) -> Result<(), TypeFault>
    ensures passes { IfOk result (λ _. mistyped_in book.now reports.now statements.now ≡ None) }
    ensures fault { IfErr result (IsToldFirst (mistyped_in book.now reports.now statements.now)) }
{
    let index = Index::new(alloc, book, reports)?;
    for (place, statement) in statements.iter().enumerate() {
        if let Err(cause) = check_statement(alloc, &index, statement) {
            return Err(TypeFault {
                statement: place as u64 + 1,
                cause,
            });
        }
    }
    Ok(())
}

/// Checks the statements of a book or of a whole session, and returns what they declare. An error is the first fault:
/// names that are declared twice come first, and then types.
pub fn check_book(alloc: Global, statements: &[Statement]) -> Result<Checked, TypeFault>
    ensures passes { IfOk result (λ _. AreTypedStatements (statements_of statements.now)) }
    ensures book { IfOk result (λ c. book_of c.book ≡ book_from (statements_of statements.now)) }
    ensures reports { IfOk result (HasReportsOf (statements_of statements.now)) }
    ensures typed { IfOk result IsCheckedWithReports }
    ensures fault { IfErr result (IsFirstFault (statements_of statements.now)) }
{
    check_names(alloc, statements)?;
    let checked = gather(alloc, statements)?;
    check_statements(alloc, &checked.book, checked.reports.as_slice(), statements)?;
    Ok(checked)
}
