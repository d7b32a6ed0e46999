//! The text of a document.
ghost use Rattle.std.specs.Prelude.{◌≡◌, IfOk, OnOk, false, map, string_bytes};
ghost use Rattle.serde_json.specs.Data.{string};
ghost use Rattle.serde_json.specs.View.{view};
ghost use Rattle.serde_json.specs.Written.{compact_text, has_float};
ghost use Rattle.poets_value.specs.code.Texts.{Puts};
ghost use Rattle.poets_lex.specs.Table.{texts_of};
ghost use Rattle.poets_command.specs.Calls.{entry_of, history_of};
ghost use Rattle.poets_syntax.specs.Book.{template_of};
ghost use Rattle.poets_report.specs.Reports.{report_of};
ghost use Rattle.poets_books.specs.Books as books;
ghost use Rattle.poets_json.specs.Document.{document, entry_data, list_data};
ghost use Rattle.poets_json.specs.Plain.{exported_of, exported_with};
ghost use Rattle.poets_json.specs.code.Values.{Is, behind_commas, list_text};

use crate::exported::Exported;
use crate::replies::entry_value;
use poets_books::book_texts;
use poets_command::Entry;
use poets_lex::Names;
use poets_report::Report;
use poets_syntax::Book;
use poets_value::{List, Memory};
use serde_json::Value as Json;
use std::alloc::Global;

// Puts a text at the end.
fn put(out: &mut String, text: &str) -> Result<(), Memory>
    ensures { OnOk result (Puts out.old out.new text.now) }
{
    out.push_str(text)?;
    Ok(())
}

// Puts the compact text of a value that has no float.
fn put_json(alloc: Global, out: &mut String, value: &Json) -> Result<(), Memory>
    requires { has_float (view value.now) ≡ false }
    ensures { OnOk result (Puts out.old out.new (compact_text (view value.now))) }
{
    let text = value.to_string(alloc)?;
    put(out, text.as_str())
}

// A list of texts.
fn texts_json(alloc: Global, texts: &[String]) -> Result<Json, Memory>
    ensures { IfOk result (Is (list_data string (texts_of texts.now))) }
{
    let mut made = Vec::new(alloc);
    for text in texts {
        let json = Json::try_from_str(alloc, text.as_str())?;
        made.push(json)?;
    }
    Ok(Json::from(made))
}

/// The value of a book with its reports, as it stands in a document: the texts of its statements.
///
/// A name that the table does not have is written as an empty text.
pub fn book_value(
    alloc: Global,
    names: &Names,
    book: &Book,
    reports: &List<Report>,
) -> Result<Json, Memory>
    ensures { IfOk result (λ v. view v ≡ list_data string (books.book_texts names.now book.now.decls.names.entries
        (map template_of book.now.templates.items) (map report_of reports.now.items))) }
{
    let texts = book_texts(alloc, names, book, reports)?;
    texts_json(alloc, texts.as_slice())
}

// Puts texts, as a list.
#[tactic(auto, using(crate::proofs::NoFloats::no_float_texts))]
fn put_texts(alloc: Global, out: &mut String, texts: &[String]) -> Result<(), Memory>
    ensures { OnOk result (Puts out.old out.new (compact_text (list_data string (texts_of texts.now)))) }
{
    let value = texts_json(alloc, texts)?;
    put_json(alloc, out, &value)
}

// Puts an entry.
fn put_entry(alloc: Global, out: &mut String, names: &Names, entry: &Entry) -> Result<(), Memory>
    ensures { OnOk result (Puts out.old out.new (compact_text (entry_data names.now (entry_of entry.now)))) }
{
    let value = entry_value(alloc, names, entry)?;
    put_json(alloc, out, &value)
}

// Puts each entry after a comma.
fn put_more_entries(
    alloc: Global,
    out: &mut String,
    names: &Names,
    entries: &[Entry],
) -> Result<(), Memory>
    ensures { OnOk result (Puts out.old out.new (behind_commas (entry_data names.now) (history_of entries.now))) }
{
    for entry in entries {
        put(out, ",")?;
        put_entry(alloc, out, names, entry)?;
    }
    Ok(())
}

// Puts entries with commas between them.
fn put_entries(
    alloc: Global,
    out: &mut String,
    names: &Names,
    entries: &[Entry],
) -> Result<(), Memory>
    ensures { OnOk result (Puts out.old out.new (list_text (entry_data names.now) (history_of entries.now))) }
{
    match entries {
        [] => Ok(()),
        [first, rest @ ..] => {
            put_entry(alloc, out, names, first)?;
            put_more_entries(alloc, out, names, rest)
        }
    }
}

/// The document of a book with its reports and of a history: its compact text.
///
/// One entry is made a value at a time, so the time is linear in the document, and the memory is that of the document.
/// A name that the table does not have is written as an empty text.
pub fn document_text(
    alloc: Global,
    names: &Names,
    book: &Book,
    reports: &List<Report>,
    history: &List<Entry>,
) -> Result<String, Memory>
    ensures { IfOk result (λ s. string_bytes s ≡ compact_text (document names.now
        (exported_with book.now reports.now history.now))) }
{
    let texts = book_texts(alloc, names, book, reports)?;
    let mut out = String::new(alloc);
    put(&mut out, "{\"book\":")?;
    put_texts(alloc, &mut out, texts.as_slice())?;
    put(&mut out, ",\"format\":\"poets 1\",\"history\":[")?;
    put_entries(alloc, &mut out, names, history.as_slice())?;
    put(&mut out, "]}")?;
    Ok(out)
}

/// The document of what is exported: its compact text, as `document_text` makes it.
pub fn export_text(alloc: Global, names: &Names, exported: &Exported) -> Result<String, Memory>
    ensures { IfOk result (λ s. string_bytes s ≡ compact_text (document names.now (exported_of exported.now))) }
{
    document_text(
        alloc,
        names,
        &exported.book,
        &exported.reports,
        &exported.history,
    )
}
