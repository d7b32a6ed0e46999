//! Values of JSON for values of the language, answers of reports, and portfolios.
ghost use Rattle.std.specs.Prelude.{IfOk, codes, map};
ghost use Rattle.serde_json.specs.Data.{no_members};
ghost use Rattle.serde_json.specs.View.{view};
ghost use Rattle.poets_report.specs.Answers.{answer_of};
ghost use Rattle.poets_command.specs.Calls.{folio_row_of};
ghost use Rattle.poets_json.specs.Document.{answer_data, folio_members, list_data, of_kind, only, part_data, row_data};
ghost use Rattle.poets_json.specs.Document.{total_members, value_data};
ghost use Rattle.poets_json.specs.code.Values.{Is};

use poets_books::value_text;
use poets_command::Folio;
use poets_lex::Names;
use poets_print::name_text;
use poets_report::Answer;
use poets_value::{Memory, Name, Value};
use serde_json::{Value as Json, json};
use std::alloc::Global;

type Row = (Option<Value>, Option<Value>);

// A value as the text of its literal, and null where it is undefined.
fn value_json(alloc: Global, names: &Names, value: &Option<Value>) -> Result<Json, Memory>
    ensures { IfOk result (Is (value_data names.now value.now)) }
{
    match value {
        None => Ok(Json::Null),
        Some(value) => Ok(Json::from(value_text(alloc, names, *value)?)),
    }
}

// A row, as `["Oil", "5"]`.
fn row_json(alloc: Global, names: &Names, row: &Row) -> Result<Json, Memory>
    ensures { IfOk result (Is (row_data names.now row.now)) }
{
    let key = value_json(alloc, names, &row.0)?;
    let value = value_json(alloc, names, &row.1)?;
    Ok(json!(in alloc; [key, value])?)
}

// Rows, in order.
fn rows_json(alloc: Global, names: &Names, rows: &[Row]) -> Result<Json, Memory>
    ensures { IfOk result (Is (list_data (row_data names.now) rows.now)) }
{
    let mut made = Vec::new(alloc);
    for row in rows {
        let json = row_json(alloc, names, row)?;
        made.push(json)?;
    }
    Ok(Json::from(made))
}

/// An answer, as `{"value": V}` or `{"rows": R}`.
pub(crate) fn answer_json(alloc: Global, names: &Names, answer: &Answer) -> Result<Json, Memory>
    ensures { IfOk result (Is (answer_data names.now (answer_of answer.now))) }
{
    match answer {
        Answer::Single(value) => {
            let value = value_json(alloc, names, value)?;
            Ok(json!(in alloc; {"value": value})?)
        }
        Answer::Rows(rows) => {
            let rows = rows_json(alloc, names, rows.as_slice())?;
            Ok(json!(in alloc; {"rows": rows})?)
        }
    }
}

// A contract's part of a portfolio, as `["a", A]`.
fn part_json(alloc: Global, names: &Names, part: &(Name, Answer)) -> Result<Json, Memory>
    ensures { IfOk result (Is (part_data names.now (folio_row_of part.now))) }
{
    let name = name_text(names, part.0);
    let answer = answer_json(alloc, names, &part.1)?;
    Ok(json!(in alloc; [name, answer])?)
}

// Parts, in order.
fn parts_json(alloc: Global, names: &Names, parts: &[(Name, Answer)]) -> Result<Json, Memory>
    ensures { IfOk result (Is (list_data (part_data names.now) (map folio_row_of parts.now))) }
{
    let mut made = Vec::new(alloc);
    for part in parts {
        let json = part_json(alloc, names, part)?;
        made.push(json)?;
    }
    Ok(Json::from(made))
}

// A portfolio with no total.
fn untotalled_json(alloc: Global, kind: &str, rows: Json) -> Result<Json, Memory>
    ensures { IfOk result (Is (of_kind kind.now (folio_members (view rows) no_members))) }
{
    Ok(json!(in alloc; {"kind": kind, "rows": rows})?)
}

// A portfolio with its total.
fn totalled_json(alloc: Global, kind: &str, rows: Json, total: Json) -> Result<Json, Memory>
    ensures { IfOk result (Is (of_kind kind.now (folio_members (view rows) (only (codes "total") (view total))))) }
{
    Ok(json!(in alloc; {"kind": kind, "rows": rows, "total": total})?)
}

// A portfolio with these rows.
fn with_rows(
    alloc: Global,
    names: &Names,
    kind: &str,
    rows: Json,
    total: &Option<Option<Value>>,
) -> Result<Json, Memory>
    ensures { IfOk result (Is (of_kind kind.now (folio_members (view rows) (total_members names.now total.now)))) }
{
    match total {
        None => untotalled_json(alloc, kind, rows),
        Some(total) => {
            let total = value_json(alloc, names, total)?;
            totalled_json(alloc, kind, rows, total)
        }
    }
}

/// A portfolio: its kind, its parts, and its total where there is one.
pub(crate) fn folio_json(
    alloc: Global,
    names: &Names,
    kind: &str,
    folio: &Folio,
) -> Result<Json, Memory>
    ensures { IfOk result (Is (of_kind kind.now (folio_members
        (list_data (part_data names.now) (map folio_row_of folio.now.rows.items))
        (total_members names.now folio.now.total)))) }
{
    let rows = parts_json(alloc, names, folio.rows.as_slice())?;
    with_rows(alloc, names, kind, rows, &folio.total)
}
