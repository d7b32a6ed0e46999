//! A document read back.
ghost use Rattle.std.specs.Prelude.{◌≡◌, ◌≢◌, ◌+◌, ◌<◌, ◌≤◌, ◌^◌, ◌↔◌, Err, IfNone, IfOk, IfSome, IsTrue, IsUtf8};
ghost use Rattle.std.specs.Prelude.{length, None, Some};
ghost use Rattle.serde_json.specs.Data.{depth};
ghost use Rattle.serde_json.specs.Read.{max_depth, read};
ghost use Rattle.serde_json.specs.View.{view};
ghost use Rattle.poets_lex.specs.Table.{Extends};
ghost use Rattle.poets_json.specs.Plain.{exported_of};
ghost use Rattle.poets_import.specs.Reading.{IsDocumentOf, IsNoDocument, IsNoDocumentIn, IsReadAs};
ghost use Rattle.poets_import.specs.code.Parts.{book_data_of, HasNoParts, HasParts};

use crate::ImportFault;
use crate::book::{Declared, book_in, gather};
use crate::entries::{entries_in, same};
use crate::spoken::all_spoken;
use poets_json::{Exported, book_value};
use poets_lex::Names;
use poets_parse::Unread;
use poets_value::Memory;
use serde_json::Value as Json;
use std::alloc::Global;

// The value that the bytes are.
fn json_in(alloc: Global, bytes: &[u8]) -> Result<Json, ImportFault>
    ensures value { IfOk result (λ v. IsUtf8 bytes.now × (read bytes.now ≡ Some (view v))) }
    ensures nests { IfOk result (λ v. depth (view v) ≤ max_depth) }
    ensures none { result ≡ Err ImportFault.NoJson → IsUtf8 bytes.now → read bytes.now ≡ None }
    ensures shape { result ≢ Err ImportFault.Shape }
{
    match Json::from_slice(alloc, bytes) {
        Ok(value) => Ok(value),
        Err(error) => {
            if error.is_memory() {
                Err(ImportFault::Memory)
            } else {
                Err(ImportFault::NoJson)
            }
        }
    }
}

// The book and the entries of a value with three members: these, and between them the format.
fn parts_of(value: &Json) -> Option<(&Json, &[Json])>
    ensures some { IfSome result (λ parts. HasParts (view value.now) (view parts.0.now) parts.1.now) }
    ensures none { IfNone result (HasNoParts (view value.now)) }
{
    let mut members = value.as_object()?.iter();
    let (book, texts) = members.next()?;
    let (format, version) = members.next()?;
    let (history, entries) = members.next()?;
    if members.next().is_some() {
        return None;
    }
    if book.as_str() != "book" || format.as_str() != "format" || history.as_str() != "history" {
        return None;
    }
    if version.as_str() != Some("poets 1") {
        return None;
    }
    Some((texts, entries.as_array()?.as_slice()))
}

// Whether the value is that of the book.
fn is_value_of(
    alloc: Global,
    names: &Names,
    value: &Json,
    declared: &Declared,
) -> Result<bool, Memory>
    requires { depth (view value.now) ≤ max_depth }
    ensures { IfOk result (λ is. IsTrue is ↔ (view value.now ≡ book_data_of names.now declared.now)) }
{
    let again = book_value(alloc, names, &declared.book, &declared.reports)?;
    same(alloc, value, &again)
}

// What a value is the document of.
fn exported_in(alloc: Global, names: &mut Names, value: &Json) -> Result<Exported, Unread>
    requires { depth (view value.now) ≤ max_depth }
    ensures document { IfOk result (λ x. IsDocumentOf names.old (view value.now) names.new (exported_of x)) }
    ensures none { result ≡ Err Unread.Shape → IsNoDocument names.old (view value.now) }
    ensures names { Extends names.old names.new }
{
    let Some((book, entries)) = parts_of(value) else {
        return Err(Unread::Shape);
    };
    let statements = book_in(alloc, names, book)?;
    let spoken = all_spoken(alloc, names, entries)?;
    let declared = gather(alloc, statements)?;
    let is_book = is_value_of(alloc, names, book, &declared)?;
    if !is_book {
        return Err(Unread::Shape);
    }
    let history = entries_in(alloc, names, &declared.book.decls, spoken)?;
    Ok(Exported {
        book: declared.book,
        reports: declared.reports,
        history,
    })
}

/// Reads a document back: the book, its reports and the history that it is the document of. New names are added to the
/// table, also where the document is refused.
///
/// It checks neither types nor whether the history is legal. The JSON value of the whole is in memory meanwhile, and
/// one entry at a time is made a value again.
pub fn import(alloc: Global, text: &[u8], names: &mut Names) -> Result<Exported, ImportFault>
    requires { length text.now + length names.old < 2 ^ 32 }
    ensures read { IfOk result (λ x. IsReadAs names.old text.now names.new (exported_of x)) }
    ensures no_json { result ≡ Err ImportFault.NoJson → IsUtf8 text.now → read text.now ≡ None }
    ensures shape { result ≡ Err ImportFault.Shape → IsNoDocumentIn names.old text.now }
    ensures names { Extends names.old names.new }
{
    let value = json_in(alloc, text)?;
    Ok(exported_in(alloc, names, &value)?)
}
