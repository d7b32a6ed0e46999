//! The statements of a book, and what they declare.
ghost use Rattle.std.specs.Prelude.{◌≡◌, [], ◌∷◌, Err, IfOk, map};
ghost use Rattle.serde_json.specs.View.{view};
ghost use Rattle.poets_lex.specs.Table.{Extends};
ghost use Rattle.poets_command.specs.Statements.{statement_of, statements_of};
ghost use Rattle.poets_import.specs.code.Gathering.{Adds, Declares, IsDeclaredBy};
ghost use Rattle.poets_import.specs.code.Spoken.{AreRead, IsBookSaid, IsNone, IsSentence};

use crate::members::items_in;
use crate::phrases::statement_in;
use poets_command::Statement;
use poets_expr::Decls;
use poets_lex::Names;
use poets_parse::Unread;
use poets_report::Report;
use poets_syntax::Book;
use poets_value::{List, Memory, Name, Ty, push};
use serde_json::Value as Json;
use std::alloc::Global;
use std::collections::BTreeMap;

/// A book and its reports.
#[derive(Drop)]
pub(crate) struct Declared {
    pub(crate) book: Book,
    pub(crate) reports: List<Report>,
}

// The statement whose text a value is.
fn sentence_in(alloc: Global, names: &mut Names, value: &Json) -> Result<Statement, Unread>
    ensures said { IfOk result (λ s. IsSentence names.old (view value.now) (statement_of s) names.new) }
    ensures none { result ≡ Err Unread.Shape → IsNone IsSentence names.old (view value.now) }
    ensures names { Extends names.old names.new }
{
    let Some(text) = value.as_str() else {
        return Err(Unread::Shape);
    };
    statement_in(alloc, names, text)
}

// The statements whose texts values are.
fn statements_in(
    alloc: Global,
    names: &mut Names,
    values: &[Json],
) -> Result<List<Statement>, Unread>
    ensures said { IfOk result (λ l.
        AreRead IsSentence names.old (map view values.now) (statements_of l.items) names.new) }
    ensures none { result ≡ Err Unread.Shape → IsNone (AreRead IsSentence) names.old (map view values.now) }
    ensures names { Extends names.old names.new }
{
    let mut statements = List::new(alloc);
    for value in values {
        let statement = sentence_in(alloc, names, value)?;
        push(&mut statements, statement)?;
    }
    Ok(statements)
}

/// The statements of a book.
pub(crate) fn book_in(
    alloc: Global,
    names: &mut Names,
    value: &Json,
) -> Result<List<Statement>, Unread>
    ensures said { IfOk result (λ l. IsBookSaid names.old (view value.now) (statements_of l.items) names.new) }
    ensures none { result ≡ Err Unread.Shape → IsNone IsBookSaid names.old (view value.now) }
    ensures names { Extends names.old names.new }
{
    let Some(texts) = items_in(value) else {
        return Err(Unread::Shape);
    };
    statements_in(alloc, names, texts)
}

// Declares the name, if it is not declared.
fn enter(decls: &mut Decls, name: Name, ty: Ty) -> Result<(), Memory>
    ensures { IfOk result (λ _. Declares ((name, ty) ∷ []) decls.old decls.new) }
{
    if decls.names.contains_key(&name) {
        return Ok(());
    }
    decls.names.insert(name, ty)?;
    Ok(())
}

// Declares the names that are not declared.
fn declare(decls: &mut Decls, names: &[Name], ty: Ty) -> Result<(), Memory>
    ensures { IfOk result (λ _. Declares (map (λ x. (x, ty)) names.now) decls.old decls.new) }
{
    for name in names {
        enter(decls, *name, ty)?;
    }
    Ok(())
}

// Adds what a statement declares.
fn add(declared: &mut Declared, statement: Statement) -> Result<(), Memory>
    ensures { IfOk result (λ _. Adds (statement_of statement) declared.old declared.new) }
{
    match statement {
        Statement::Agents(names) => declare(&mut declared.book.decls, names.as_slice(), Ty::Agent),
        Statement::Kinds(names) => declare(&mut declared.book.decls, names.as_slice(), Ty::Kind),
        Statement::Template(template) => push(&mut declared.book.templates, template),
        Statement::Report(report) => push(&mut declared.reports, report),
        _ => Ok(()),
    }
}

/// What statements declare. Whether there are others among them is not asked: their texts are no book's.
pub(crate) fn gather(alloc: Global, statements: List<Statement>) -> Result<Declared, Memory>
    ensures { IfOk result (IsDeclaredBy (statements_of statements.items)) }
{
    let mut declared = Declared {
        book: Book {
            decls: Decls {
                names: BTreeMap::new(alloc),
            },
            templates: List::new(alloc),
        },
        reports: List::new(alloc),
    };
    for statement in statements.into_vec() {
        add(&mut declared, statement)?;
    }
    Ok(declared)
}
