//! The entries of a history, each compared with the value that it was read from.
ghost use Rattle.std.specs.Prelude.{◌≡◌, ◌≤◌, ◌↔◌, All, Err, false, IfOk, IsTrue, map};
ghost use Rattle.std.specs.List.{AllZip};
ghost use Rattle.serde_json.specs.Data.{depth};
ghost use Rattle.serde_json.specs.Read.{max_depth};
ghost use Rattle.serde_json.specs.View.{view};
ghost use Rattle.serde_json.specs.Written.{has_float};
ghost use Rattle.poets_expr.specs.Env.{declared_of};
ghost use Rattle.poets_command.specs.Calls.{entry_of, history_of};
ghost use Rattle.poets_json.specs.Document.{entry_data};
ghost use Rattle.poets_import.specs.code.Finding.{FindsOnly};
ghost use Rattle.poets_import.specs.code.Members as members;
ghost use Rattle.poets_import.specs.code.Parts.{AreNoEntries, IsFoundEntry, IsSaidEntry, data_of, said_of};

use crate::members::number_at;
use crate::replies::reply_in;
use crate::spoken::Spoken;
use poets_command::Entry;
use poets_expr::Decls;
use poets_json::entry_value;
use poets_lex::Names;
use poets_parse::Unread;
use poets_value::{List, Memory, push};
use serde_json::Value as Json;
use std::alloc::Global;

// The number of a clerk.
fn clerk_at(value: &Json) -> Option<u32>
    ensures { result ≡ members.clerk_at (view value.now) }
{
    u32::try_from(number_at(value, "clerk")?).ok()
}

/// Whether two values are equal, of which the second has no float.
pub(crate) fn same(alloc: Global, left: &Json, right: &Json) -> Result<bool, Memory>
    requires left { depth (view left.now) ≤ max_depth }
    requires right { depth (view right.now) ≤ max_depth }
    requires floats { has_float (view right.now) ≡ false }
    ensures { IfOk result (λ same. IsTrue same ↔ (view left.now ≡ view right.now)) }
{
    let left = left.to_string(alloc)?;
    let right = right.to_string(alloc)?;
    Ok(left.as_str() == right.as_str())
}

// Whether the value is that of the entry.
fn is_value_of(alloc: Global, names: &Names, value: &Json, entry: &Entry) -> Result<bool, Memory>
    requires { depth (view value.now) ≤ max_depth }
    ensures { IfOk result (λ is. IsTrue is ↔ (view value.now ≡ entry_data names.now (entry_of entry.now))) }
{
    let again = entry_value(alloc, names, entry)?;
    same(alloc, value, &again)
}

// The entry that a value may be of, which is not yet compared with it.
fn candidate(
    alloc: Global,
    names: &Names,
    decls: &Decls,
    spoken: Spoken<'_>,
) -> Result<Entry, Unread>
    ensures found { IfOk result (λ e.
        IsFoundEntry names.now (declared_of decls.now.names) (said_of spoken.entry) (entry_of e)) }
    ensures only { FindsOnly entry_of (IsSaidEntry names.now (declared_of decls.now.names) (said_of spoken.entry))
        (entry_data names.now) (data_of spoken.entry) result }
{
    let Some(clerk) = clerk_at(spoken.value) else {
        return Err(Unread::Shape);
    };
    let Some(reply) = spoken.value.get("reply") else {
        return Err(Unread::Shape);
    };
    let reply = reply_in(alloc, names, decls, reply, spoken.owed)?;
    Ok(Entry {
        clerk,
        command: spoken.command,
        reply,
    })
}

// An entry.
fn entry_in(
    alloc: Global,
    names: &Names,
    decls: &Decls,
    spoken: Spoken<'_>,
) -> Result<Entry, Unread>
    requires { depth (data_of spoken) ≤ max_depth }
    ensures value { IfOk result (λ e. data_of spoken.entry ≡ entry_data names.now (entry_of e)) }
    ensures found { IfOk result (λ e.
        IsFoundEntry names.now (declared_of decls.now.names) (said_of spoken.entry) (entry_of e)) }
    ensures only { FindsOnly entry_of (IsSaidEntry names.now (declared_of decls.now.names) (said_of spoken.entry))
        (entry_data names.now) (data_of spoken.entry) result }
{
    let value = spoken.value;
    let entry = candidate(alloc, names, decls, spoken)?;
    if is_value_of(alloc, names, value, &entry)? {
        Ok(entry)
    } else {
        Err(Unread::Shape)
    }
}

/// The entries, in order.
pub(crate) fn entries_in(
    alloc: Global,
    names: &Names,
    decls: &Decls,
    spoken: List<Spoken<'_>>,
) -> Result<List<Entry>, Unread>
    requires { All (λ s. depth (data_of s) ≤ max_depth) spoken.items }
    ensures values { IfOk result (λ l.
        map data_of spoken.entry.items ≡ map (entry_data names.now) (history_of l.items)) }
    ensures found { IfOk result (λ l. AllZip (IsFoundEntry names.now (declared_of decls.now.names))
        (map said_of spoken.entry.items) (history_of l.items)) }
    ensures none { result ≡ Err Unread.Shape →
        AreNoEntries names.now (declared_of decls.now.names) (map said_of spoken.entry.items)
        (map data_of spoken.entry.items) }
{
    let mut entries = List::new(alloc);
    for spoken in spoken.into_vec() {
        let entry = entry_in(alloc, names, decls, spoken)?;
        push(&mut entries, entry)?;
    }
    Ok(entries)
}
