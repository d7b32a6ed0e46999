//! Values of the language, answers of reports, and portfolios, in values of JSON. Names stand in the table.
ghost use Rattle.std.specs.Prelude.{All, codes, IfOk, IfSome, map, option_map, Some};
ghost use Rattle.serde_json.specs.Find.{get};
ghost use Rattle.serde_json.specs.View.{view};
ghost use Rattle.poets_expr.specs.Env.{declared_of};
ghost use Rattle.poets_report.specs.Answers.{answer_of};
ghost use Rattle.poets_command.specs.Calls.{folio_row_of};
ghost use Rattle.poets_print.specs.Texts.{name_text};
ghost use Rattle.poets_literals.specs.Declared.{IsPlaced};
ghost use Rattle.poets_json.specs.Document.{answer_data, part_data, row_data, value_data};
ghost use Rattle.poets_import.specs.Reading.{HasTotal, HasValues, IsIfDefined};
ghost use Rattle.poets_import.specs.code.Finding.{FindsAll, FindsOnly, FindsSome, IsFolio, IsPart, IsRow};
ghost use Rattle.poets_import.specs.code.Finding.{folio_as_data, folio_of};
ghost use Rattle.poets_import.specs.code.Members as members;

use crate::members::{first_text, items_at};
use poets_command::Folio;
use poets_expr::Decls;
use poets_lex::Names;
use poets_literals::read_value;
use poets_parse::Unread;
use poets_report::Answer;
use poets_value::{List, Name, Value, push};
use serde_json::Value as Json;
use std::alloc::Global;

type Row = (Option<Value>, Option<Value>);

// The value whose literal a text is, or "undefined", which is null.
fn value_in(names: &Names, decls: &Decls, value: &Json) -> Result<Option<Value>, Unread>
    ensures told { IfOk result (IsIfDefined names.now (declared_of decls.now.names)) }
    ensures only { FindsOnly (λ v. v) (IsIfDefined names.now (declared_of decls.now.names))
        (value_data names.now) (view value.now) result }
{
    match value {
        Json::Null => Ok(None),
        Json::String(text) => match read_value(names, decls, text.as_str()) {
            Some(value) => Ok(Some(value)),
            None => Err(Unread::Shape),
        },
        _ => Err(Unread::Shape),
    }
}

// The row that a pair is.
fn row_in(names: &Names, decls: &Decls, value: &Json) -> Result<Row, Unread>
    ensures told { IfOk result (IsRow names.now (declared_of decls.now.names)) }
    ensures only { FindsOnly (λ row. row) (IsRow names.now (declared_of decls.now.names))
        (row_data names.now) (view value.now) result }
{
    let (Some(key), Some(second)) = (value.get(0), value.get(1)) else {
        return Err(Unread::Shape);
    };
    let key = value_in(names, decls, key)?;
    let value = value_in(names, decls, second)?;
    Ok((key, value))
}

// The rows that pairs are.
fn rows_in(
    alloc: Global,
    names: &Names,
    decls: &Decls,
    values: &[Json],
) -> Result<List<Row>, Unread>
    ensures told { IfOk result (λ l. All (IsRow names.now (declared_of decls.now.names)) l.items) }
    ensures only { FindsAll (λ l. l.items) (IsRow names.now (declared_of decls.now.names))
        (row_data names.now) (map view values.now) result }
{
    let mut rows = List::new(alloc);
    for value in values {
        let row = row_in(names, decls, value)?;
        push(&mut rows, row)?;
    }
    Ok(rows)
}

/// The answer of a report.
pub(crate) fn answer_in(
    alloc: Global,
    names: &Names,
    decls: &Decls,
    value: &Json,
) -> Result<Answer, Unread>
    ensures told { IfOk result (λ a. HasValues names.now (declared_of decls.now.names) (answer_of a)) }
    ensures only { FindsOnly answer_of (HasValues names.now (declared_of decls.now.names))
        (answer_data names.now) (view value.now) result }
{
    if let Some(rows) = items_at(value, "rows") {
        return Ok(Answer::Rows(rows_in(alloc, names, decls, rows)?));
    }
    let Some(single) = value.get("value") else {
        return Err(Unread::Shape);
    };
    Ok(Answer::Single(value_in(names, decls, single)?))
}

// The name whose text the first item of an array is.
fn first_name(names: &Names, value: &Json) -> Option<Name>
    ensures told { IfSome result (IsPlaced names.now) }
    ensures only { FindsSome (IsPlaced names.now) (λ x. Some (name_text names.now x))
        (members.first_text (view value.now)) result }
{
    names.find(first_text(value)?)
}

// A contract's part of a portfolio.
fn part_in(
    alloc: Global,
    names: &Names,
    decls: &Decls,
    value: &Json,
) -> Result<(Name, Answer), Unread>
    ensures told { IfOk result (λ p. IsPart names.now (declared_of decls.now.names) (folio_row_of p)) }
    ensures only { FindsOnly folio_row_of (IsPart names.now (declared_of decls.now.names))
        (part_data names.now) (view value.now) result }
{
    let (Some(name), Some(second)) = (first_name(names, value), value.get(1)) else {
        return Err(Unread::Shape);
    };
    let answer = answer_in(alloc, names, decls, second)?;
    Ok((name, answer))
}

// The parts of a portfolio.
fn parts_in(
    alloc: Global,
    names: &Names,
    decls: &Decls,
    values: &[Json],
) -> Result<List<(Name, Answer)>, Unread>
    ensures told { IfOk result (λ l.
        All (IsPart names.now (declared_of decls.now.names)) (map folio_row_of l.items)) }
    ensures only { FindsAll (λ l. map folio_row_of l.items) (IsPart names.now (declared_of decls.now.names))
        (part_data names.now) (map view values.now) result }
{
    let mut parts = List::new(alloc);
    for value in values {
        let part = part_in(alloc, names, decls, value)?;
        push(&mut parts, part)?;
    }
    Ok(parts)
}

// The total of a portfolio, if it has one.
fn total_at(names: &Names, decls: &Decls, value: &Json) -> Result<Option<Option<Value>>, Unread>
    ensures told { IfOk result (HasTotal names.now (declared_of decls.now.names)) }
    ensures only { FindsOnly (λ total. total) (HasTotal names.now (declared_of decls.now.names))
        (option_map (value_data names.now)) (get (codes "total") (view value.now)) result }
{
    match value.get("total") {
        None => Ok(None),
        Some(total) => Ok(Some(value_in(names, decls, total)?)),
    }
}

/// A portfolio.
pub(crate) fn folio_in(
    alloc: Global,
    names: &Names,
    decls: &Decls,
    value: &Json,
) -> Result<Folio, Unread>
    ensures told { IfOk result (λ f. IsFolio names.now (declared_of decls.now.names) (folio_of f)) }
    ensures only { FindsOnly folio_of (IsFolio names.now (declared_of decls.now.names))
        (folio_as_data names.now) (view value.now) result }
{
    let Some(rows) = items_at(value, "rows") else {
        return Err(Unread::Shape);
    };
    let rows = parts_in(alloc, names, decls, rows)?;
    let total = total_at(names, decls, value)?;
    Ok(Folio { rows, total })
}
