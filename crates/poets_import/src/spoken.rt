//! What the entries of a history say: their commands, and what is still owed. These texts, and names, add names.
ghost use Rattle.std.specs.Prelude.{◌≡◌, codes, Err, IfOk, map, OnOk, option_map};
ghost use Rattle.serde_json.specs.View.{view};
ghost use Rattle.poets_lex.specs.Table.{Extends};
ghost use Rattle.poets_syntax.specs.Contract.{contract_of};
ghost use Rattle.poets_import.specs.code.Members as members;
ghost use Rattle.poets_import.specs.code.Parts.{said_of};
ghost use Rattle.poets_import.specs.code.Spoken.{AreRead, EntrySaid, IsNone, IsNowhere, IsRowOf, NameSaid, OwedSaid};
ghost use Rattle.poets_import.specs.code.Spoken.{ReplySaid, RowsSaid};

use crate::members::{first_text, items_at, text_at};
use crate::phrases::{command_in, name_in, owed_in};
use poets_command::Command;
use poets_lex::Names;
use poets_parse::Unread;
use poets_syntax::Term;
use poets_value::{List, Name, push};
use serde_json::Value as Json;
use std::alloc::Global;
use std::sync::Arc;

/// The value of an entry, and what its texts say.
#[derive(Drop)]
pub(crate) struct Spoken<'a> {
    pub(crate) value: &'a Json,
    pub(crate) command: Arc<Command>,
    /// What is still owed, where the reply shows it.
    pub(crate) owed: Option<Term>,
}

// Enters the name that a reply tells, if it tells one.
fn enter_name(alloc: Global, names: &mut Names, reply: &Json) -> Result<(), Unread>
    ensures said { OnOk result (NameSaid names.old (members.text_at (codes "name") (view reply.now)) names.new) }
    ensures none { result ≡ Err Unread.Shape →
        IsNowhere NameSaid names.old (members.text_at (codes "name") (view reply.now)) }
    ensures names { Extends names.old names.new }
{
    if let Some(text) = text_at(reply, "name") {
        name_in(alloc, names, text)?;
    }
    Ok(())
}

// The name of a row of a portfolio.
fn row_name(alloc: Global, names: &mut Names, row: &Json) -> Result<Name, Unread>
    ensures said { IfOk result (λ x. IsRowOf names.old (view row.now) x names.new) }
    ensures none { result ≡ Err Unread.Shape → IsNone IsRowOf names.old (view row.now) }
    ensures names { Extends names.old names.new }
{
    let Some(name) = first_text(row) else {
        return Err(Unread::Shape);
    };
    name_in(alloc, names, name)
}

// The names of the rows of a portfolio.
fn row_names(alloc: Global, names: &mut Names, rows: &[Json]) -> Result<List<Name>, Unread>
    ensures said { IfOk result (λ xs. AreRead IsRowOf names.old (map view rows.now) xs.items names.new) }
    ensures none { result ≡ Err Unread.Shape → IsNone (AreRead IsRowOf) names.old (map view rows.now) }
    ensures names { Extends names.old names.new }
{
    let mut found = List::new(alloc);
    for row in rows {
        let name = row_name(alloc, names, row)?;
        push(&mut found, name)?;
    }
    Ok(found)
}

// Enters the names of the rows of a portfolio, if the reply is one.
fn enter_rows(alloc: Global, names: &mut Names, reply: &Json) -> Result<(), Unread>
    ensures said { OnOk result (RowsSaid names.old (members.items_at (codes "rows") (view reply.now)) names.new) }
    ensures none { result ≡ Err Unread.Shape →
        IsNowhere RowsSaid names.old (members.items_at (codes "rows") (view reply.now)) }
    ensures names { Extends names.old names.new }
{
    if let Some(rows) = items_at(reply, "rows") {
        row_names(alloc, names, rows)?;
    }
    Ok(())
}

// What is still owed, if the reply shows it.
fn owed_at(alloc: Global, names: &mut Names, reply: &Json) -> Result<Option<Term>, Unread>
    ensures said { IfOk result (λ owed. OwedSaid names.old (members.text_at (codes "residual") (view reply.now))
        (option_map contract_of owed) names.new) }
    ensures none { result ≡ Err Unread.Shape →
        IsNone OwedSaid names.old (members.text_at (codes "residual") (view reply.now)) }
    ensures names { Extends names.old names.new }
{
    match text_at(reply, "residual") {
        Some(text) => Ok(Some(owed_in(alloc, names, text)?)),
        None => Ok(None),
    }
}

// What the texts of a reply say: what is still owed, if the reply shows it.
fn reply_said(alloc: Global, names: &mut Names, reply: &Json) -> Result<Option<Term>, Unread>
    ensures said { IfOk result (λ owed.
        ReplySaid names.old (view reply.now) (option_map contract_of owed) names.new) }
    ensures none { result ≡ Err Unread.Shape → IsNone ReplySaid names.old (view reply.now) }
    ensures names { Extends names.old names.new }
{
    enter_name(alloc, names, reply)?;
    enter_rows(alloc, names, reply)?;
    owed_at(alloc, names, reply)
}

// What the texts of an entry say.
fn spoken_in<'a>(alloc: Global, names: &mut Names, value: &'a Json) -> Result<Spoken<'a>, Unread>
    ensures said { IfOk result (λ s. EntrySaid names.old (view value.now) (said_of s) names.new) }
    ensures value { IfOk result (λ s. s.value.now ≡ value.now) }
    ensures none { result ≡ Err Unread.Shape → IsNone EntrySaid names.old (view value.now) }
    ensures names { Extends names.old names.new }
{
    let Some(text) = text_at(value, "command") else {
        return Err(Unread::Shape);
    };
    let Some(reply) = value.get("reply") else {
        return Err(Unread::Shape);
    };
    let command = command_in(alloc, names, text)?;
    let owed = reply_said(alloc, names, reply)?;
    Ok(Spoken {
        value,
        command,
        owed,
    })
}

/// What the texts of the entries say.
pub(crate) fn all_spoken<'a>(
    alloc: Global,
    names: &mut Names,
    values: &'a [Json],
) -> Result<List<Spoken<'a>>, Unread>
    ensures said { IfOk result (λ l.
        AreRead EntrySaid names.old (map view values.now) (map said_of l.items) names.new) }
    ensures values { IfOk result (λ l. map (λ s. s.value.now) l.items ≡ values.now) }
    ensures none { result ≡ Err Unread.Shape → IsNone (AreRead EntrySaid) names.old (map view values.now) }
    ensures names { Extends names.old names.new }
{
    let mut all = List::new(alloc);
    for value in values {
        let spoken = spoken_in(alloc, names, value)?;
        push(&mut all, spoken)?;
    }
    Ok(all)
}
