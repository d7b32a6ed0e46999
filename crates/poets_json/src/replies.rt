//! Values of JSON for replies, and for the entries of a history.
ghost use Rattle.std.specs.Prelude.{◌≡◌, IfOk, codes, string_bytes};
ghost use Rattle.serde_json.specs.Data.{no_members, string};
ghost use Rattle.serde_json.specs.View.{view};
ghost use Rattle.poets_value.specs.Civil as civil;
ghost use Rattle.poets_command.specs.Calls.{entry_of, reply_of};
ghost use Rattle.poets_print.specs.Texts as texts;
ghost use Rattle.poets_json.specs.Document.{count_data, counted_members, entry_data, entry_with};
ghost use Rattle.poets_json.specs.Document.{of_kind, only, reply_data, shown_members};
ghost use Rattle.poets_json.specs.code.Values.{Is};

use crate::answers::{answer_json, folio_json};
use poets_books::{day_text, kind_text};
use poets_command::{Entry, Reply};
use poets_lex::Names;
use poets_print::{command_text, name_text, term_text};
use poets_value::{Day, Memory, Name};
use serde_json::{Value as Json, json};
use std::alloc::Global;

// A reply that tells nothing but what it is.
fn word_json(alloc: Global, kind: &str) -> Result<Json, Memory>
    ensures { IfOk result (Is (of_kind kind.now no_members)) }
{
    Ok(json!(in alloc; {"kind": kind})?)
}

// A reply with the number of a contract.
fn id_json(alloc: Global, kind: &str, id: u64) -> Result<Json, Memory>
    ensures { IfOk result (Is (of_kind kind.now (only (codes "id") (count_data id)))) }
{
    Ok(json!(in alloc; {"id": id, "kind": kind})?)
}

// A reply with the number of a watch, or the place of an event.
fn number_json(alloc: Global, kind: &str, number: u64) -> Result<Json, Memory>
    ensures { IfOk result (Is (of_kind kind.now (only (codes "number") (count_data number)))) }
{
    Ok(json!(in alloc; {"kind": kind, "number": number})?)
}

// The reply to an event that is recorded, or withdrawn.
fn counted_json(alloc: Global, kind: &str, count: u64, may_end: bool) -> Result<Json, Memory>
    ensures { IfOk result (Is (of_kind kind.now (counted_members count may_end))) }
{
    Ok(json!(in alloc; {"count": count, "kind": kind, "may_end": may_end})?)
}

// The reply about a name that no contract has.
fn name_json(alloc: Global, names: &Names, kind: &str, name: Name) -> Result<Json, Memory>
    ensures { IfOk result (Is (of_kind kind.now (only (codes "name") (string (texts.name_text names.now name))))) }
{
    let name = name_text(names, name);
    Ok(json!(in alloc; {"kind": kind, "name": name})?)
}

// The reply to an event that comes after one of this later day.
fn day_json(alloc: Global, kind: &str, day: Day) -> Result<Json, Memory>
    ensures { IfOk result (Is (of_kind kind.now (only (codes "day") (string (civil.day_text day))))) }
{
    let day = day_text(alloc, day)?;
    Ok(json!(in alloc; {"day": day, "kind": kind})?)
}

// The reply to a look at a contract.
fn shown_json(
    alloc: Global,
    kind: &str,
    residual: String,
    count: u64,
    may_end: bool,
    ended: bool,
) -> Result<Json, Memory>
    ensures { IfOk result (Is (of_kind kind.now (shown_members (string_bytes residual) count may_end ended))) }
{
    Ok(json!(in alloc; {
        "count": count, "ended": ended, "kind": kind, "may_end": may_end, "residual": residual
    })?)
}

// The reply with the answer of a report.
fn answered_json(alloc: Global, kind: &str, answer: Json) -> Result<Json, Memory>
    ensures { IfOk result (Is (of_kind kind.now (only (codes "answer") (view answer)))) }
{
    Ok(json!(in alloc; {"answer": answer, "kind": kind})?)
}

// A reply: what it is, and what it tells.
fn reply_json(alloc: Global, names: &Names, reply: &Reply) -> Result<Json, Memory>
    ensures { IfOk result (Is (reply_data names.now (reply_of reply.now))) }
{
    let kind = kind_text(reply);
    match reply {
        Reply::Registered(id) | Reply::NameTaken(id) => id_json(alloc, kind, *id),
        Reply::Recorded { count, may_end } | Reply::Voided { count, may_end } => {
            counted_json(alloc, kind, *count, *may_end)
        }
        Reply::NoEvent(number) | Reply::Watching(number) | Reply::NoWatch(number) => {
            number_json(alloc, kind, *number)
        }
        Reply::NoContract(name) => name_json(alloc, names, kind, *name),
        Reply::Late(day) => day_json(alloc, kind, *day),
        Reply::Shown {
            residual,
            count,
            may_end,
            ended,
        } => {
            let residual = term_text(alloc, names, residual)?;
            shown_json(alloc, kind, residual, *count, *may_end, *ended)
        }
        Reply::Answered(answer) => {
            let answer = answer_json(alloc, names, answer)?;
            answered_json(alloc, kind, answer)
        }
        Reply::Folio(folio) => folio_json(alloc, names, kind, folio),
        Reply::Hopeless
        | Reply::TooLarge
        | Reply::Ended
        | Reply::Unmatched
        | Reply::EndedNow
        | Reply::AlreadyEnded
        | Reply::NotPerformed => word_json(alloc, kind),
    }
}

// An entry: the clerk's number, the text of the command, and the reply.
fn entry_json(alloc: Global, clerk: u32, command: String, reply: Json) -> Result<Json, Memory>
    ensures { IfOk result (Is (entry_with clerk (string_bytes command) (view reply))) }
{
    Ok(json!(in alloc; {"clerk": clerk, "command": command, "reply": reply})?)
}

/// The value of an entry of a history, as it stands in a document.
///
/// A name that the table does not have is written as an empty text.
pub fn entry_value(alloc: Global, names: &Names, entry: &Entry) -> Result<Json, Memory>
    ensures { IfOk result (λ v. view v ≡ entry_data names.now (entry_of entry.now)) }
{
    let command = command_text(alloc, names, &*entry.command)?;
    let reply = reply_json(alloc, names, &entry.reply)?;
    entry_json(alloc, entry.clerk, command, reply)
}
