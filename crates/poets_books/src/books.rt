//! The texts of the statements of a book.
ghost use Rattle.std.specs.Prelude.{◌≡◌, ◌++◌, OnOk, IfOk, map};
ghost use Rattle.poets_syntax.specs.Book.{template_of};
ghost use Rattle.poets_report.specs.Reports.{report_of};
ghost use Rattle.poets_lex.specs.Table.{texts_of};
ghost use Rattle.poets_books.specs.Books as books;
ghost use Rattle.poets_books.specs.code.Putting.{Adds, listed_texts, report_texts, template_texts};

use crate::declarations::{report_text, template_text};
use crate::lists::names_text;
use poets_expr::Decls;
use poets_lex::Names;
use poets_report::Report;
use poets_syntax::{Book, Template};
use poets_value::{List, Memory, Name, Ty, push};
use std::alloc::Global;

// The names that are declared with a type, in the order of their numbers.
fn names_with(alloc: Global, decls: &Decls, ty: Ty) -> Result<List<Name>, Memory>
    ensures { IfOk result (λ l. l.items ≡ books.names_with ty decls.now.names.entries) }
{
    let mut found = List::new(alloc);
    for (name, declared) in &decls.names {
        if *declared == ty {
            push(&mut found, *name)?;
        }
    }
    Ok(found)
}

// Adds the statement that declares names by a word, where there are any.
fn add_declaration(
    alloc: Global,
    names: &Names,
    word: &str,
    declared: &[Name],
    texts: &mut List<String>,
) -> Result<(), Memory>
    ensures { OnOk result (Adds texts.old.items texts.new.items (listed_texts names.now word.now declared.now)) }
{
    if declared.is_empty() {
        return Ok(());
    }
    let listed = names_text(alloc, names, declared)?;
    let text = format!(in alloc; "{word}{listed}")?;
    push(texts, text)?;
    Ok(())
}

// Adds the statements of templates.
fn add_templates(
    alloc: Global,
    names: &Names,
    templates: &[Template],
    texts: &mut List<String>,
) -> Result<(), Memory>
    ensures { OnOk result (Adds texts.old.items texts.new.items (template_texts names.now templates.now)) }
{
    for template in templates {
        let text = template_text(alloc, names, template)?;
        push(texts, text)?;
    }
    Ok(())
}

// Adds the statements of reports.
fn add_reports(
    alloc: Global,
    names: &Names,
    reports: &[Report],
    texts: &mut List<String>,
) -> Result<(), Memory>
    ensures { OnOk result (Adds texts.old.items texts.new.items (report_texts names.now reports.now)) }
{
    for report in reports {
        let text = report_text(alloc, names, report)?;
        push(texts, text)?;
    }
    Ok(())
}

/// The texts of the statements of a book, without `;;`: of its agents and of its kinds, each in the order of their
/// numbers and left out where there are none, then of its templates, and of the reports. The book need not be typed.
///
/// A name that the table does not have prints as nothing.
pub fn book_texts(
    alloc: Global,
    names: &Names,
    book: &Book,
    reports: &List<Report>,
) -> Result<List<String>, Memory>
    ensures { IfOk result (λ l. texts_of l.items ≡ books.book_texts names.now book.now.decls.names.entries
        (map template_of book.now.templates.items) (map report_of reports.now.items)) }
{
    let mut texts = List::new(alloc);
    let agents = names_with(alloc, &book.decls, Ty::Agent)?;
    add_declaration(alloc, names, "agents ", agents.as_slice(), &mut texts)?;
    let kinds = names_with(alloc, &book.decls, Ty::Kind)?;
    add_declaration(alloc, names, "kinds ", kinds.as_slice(), &mut texts)?;
    add_templates(alloc, names, book.templates.as_slice(), &mut texts)?;
    add_reports(alloc, names, reports.as_slice(), &mut texts)?;
    Ok(texts)
}
