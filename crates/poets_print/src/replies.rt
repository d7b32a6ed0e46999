//! The texts of replies.
ghost use Rattle.std.specs.Prelude.{OnOk, IfOk, map};
ghost use Rattle.std.specs.Fmt.{decimal};
ghost use Rattle.poets_report.specs.Answers.{answer_of};
ghost use Rattle.poets_command.specs.Calls.{reply_of, folio_row_of};
ghost use Rattle.poets_print.specs.Texts.{IsText, behind_commas};
ghost use Rattle.poets_print.specs.Lines.{yes_text, row_text, rows_text, answer_text, answered_text, part_text};
ghost use Rattle.poets_print.specs.Lines.{parts_text, total_text};
ghost use Rattle.poets_print.specs.Lines as lines;
ghost use Rattle.poets_value.specs.code.Texts.{Puts};
ghost use Rattle.poets_print.specs.code.Putting.{more_parts, folio_text, shown_text};

use crate::contracts::put_contract;
use crate::pieces::{put, put_counted, put_day, put_name, put_named, put_optional};
use poets_command::{Folio, Reply};
use poets_lex::Names;
use poets_report::Answer;
use poets_syntax::Term;
use poets_value::{List, Memory, Name, Value};
use std::alloc::Global;

type Row = (Option<Value>, Option<Value>);

// Puts `yes` or `no`.
fn put_yes(out: &mut String, yes: bool) -> Result<(), Memory>
    ensures { OnOk result (Puts out.old out.new (yes_text yes)) }
{
    if yes { put(out, "yes") } else { put(out, "no") }
}

// Puts a row, as `Oil: 5`.
fn put_row(out: &mut String, names: &Names, row: &Row) -> Result<(), Memory>
    ensures { OnOk result (Puts out.old out.new (row_text names.now row.now)) }
{
    put_optional(out, names, &row.0)?;
    put(out, ": ")?;
    put_optional(out, names, &row.1)
}

// Puts each row after a comma.
fn put_rest(out: &mut String, names: &Names, rows: &[Row]) -> Result<(), Memory>
    ensures { OnOk result (Puts out.old out.new (behind_commas (row_text names.now) rows.now)) }
{
    for row in rows {
        put(out, ", ")?;
        put_row(out, names, row)?;
    }
    Ok(())
}

// Puts rows, as `{Oil: 5, USD: 7}`.
fn put_rows(out: &mut String, names: &Names, rows: &List<Row>) -> Result<(), Memory>
    ensures { OnOk result (Puts out.old out.new (rows_text names.now rows.now.items)) }
{
    put(out, "{")?;
    if let [first, rest @ ..] = rows.as_slice() {
        put_row(out, names, first)?;
        put_rest(out, names, rest)?;
    }
    put(out, "}")
}

// Puts a report's answer.
fn put_answer(out: &mut String, names: &Names, answer: &Answer) -> Result<(), Memory>
    ensures { OnOk result (Puts out.old out.new (answer_text names.now (answer_of answer.now))) }
{
    match answer {
        Answer::Single(value) => put_optional(out, names, value),
        Answer::Rows(rows) => put_rows(out, names, rows),
    }
}

// Puts a report's answer with the word that tells its form.
fn put_answered(out: &mut String, names: &Names, answer: &Answer) -> Result<(), Memory>
    ensures { OnOk result (Puts out.old out.new (answered_text names.now (answer_of answer.now))) }
{
    match answer {
        Answer::Single(value) => {
            put(out, "value ")?;
            put_optional(out, names, value)
        }
        Answer::Rows(rows) => {
            put(out, "rows ")?;
            put_rows(out, names, rows)
        }
    }
}

// Puts a contract's part of a portfolio, as `a 5`.
fn put_part(out: &mut String, names: &Names, part: &(Name, Answer)) -> Result<(), Memory>
    ensures { OnOk result (Puts out.old out.new (part_text names.now (folio_row_of part.now))) }
{
    put_name(out, names, part.0)?;
    put(out, " ")?;
    put_answer(out, names, &part.1)
}

// Puts each part after a comma.
fn put_more_parts(out: &mut String, names: &Names, parts: &[(Name, Answer)]) -> Result<(), Memory>
    ensures { OnOk result (Puts out.old out.new (more_parts names.now parts.now)) }
{
    for part in parts {
        put(out, ", ")?;
        put_part(out, names, part)?;
    }
    Ok(())
}

// Puts the parts of a portfolio, and its total where there is one.
fn put_folio(out: &mut String, names: &Names, folio: &Folio) -> Result<(), Memory>
    ensures { OnOk result (Puts out.old out.new (folio_text names.now folio.now)) }
{
    put(out, "portfolio ")?;
    put_parts(out, names, folio.rows.as_slice())?;
    put_total(out, names, &folio.total)
}

// Puts parts with commas between them.
fn put_parts(out: &mut String, names: &Names, parts: &[(Name, Answer)]) -> Result<(), Memory>
    ensures { OnOk result (Puts out.old out.new (parts_text names.now (map folio_row_of parts.now))) }
{
    match parts {
        [] => Ok(()),
        [first, rest @ ..] => {
            put_part(out, names, first)?;
            put_more_parts(out, names, rest)
        }
    }
}

// Puts the total, where there is one.
fn put_total(out: &mut String, names: &Names, total: &Option<Option<Value>>) -> Result<(), Memory>
    ensures { OnOk result (Puts out.old out.new (total_text names.now total.now)) }
{
    match total {
        None => Ok(()),
        Some(value) => {
            put(out, ", total ")?;
            put_optional(out, names, value)
        }
    }
}

// Puts what a contract's residual is, how many events it stands after, and whether it may end or was ended.
fn put_shown(
    out: &mut String,
    names: &Names,
    residual: &Term,
    count: u64,
    may_end: bool,
    ended: bool,
) -> Result<(), Memory>
    ensures { OnOk result (Puts out.old out.new (shown_text names.now residual.now count may_end ended)) }
{
    put_counted(out, "events ", count)?;
    put(out, ", may end ")?;
    put_yes(out, may_end)?;
    put(out, ", ended ")?;
    put_yes(out, ended)?;
    put(out, ", residual ")?;
    put_contract(out, names, residual)
}

/// Puts a reply.
pub(crate) fn put_reply(out: &mut String, names: &Names, reply: &Reply) -> Result<(), Memory>
    ensures { OnOk result (Puts out.old out.new (lines.reply_text names.now (reply_of reply.now))) }
{
    match reply {
        Reply::Registered(number) => put_counted(out, "registered ", *number),
        Reply::NameTaken(number) => put_counted(out, "name taken by ", *number),
        Reply::Hopeless => put(out, "hopeless"),
        Reply::TooLarge => put(out, "too large"),
        Reply::Recorded { count, may_end } => {
            put_counted(out, "recorded ", *count)?;
            put(out, ", may end ")?;
            put_yes(out, *may_end)
        }
        Reply::Voided { count, may_end } => {
            put_counted(out, "voided, events ", *count)?;
            put(out, ", may end ")?;
            put_yes(out, *may_end)
        }
        Reply::NoEvent(place) => put_counted(out, "no event ", *place),
        Reply::NoContract(name) => put_named(out, names, "no contract ", *name),
        Reply::Ended => put(out, "ended"),
        Reply::Late(day) => {
            put(out, "late ")?;
            put_day(out, *day)
        }
        Reply::Unmatched => put(out, "unmatched"),
        Reply::EndedNow => put(out, "ended now"),
        Reply::AlreadyEnded => put(out, "already ended"),
        Reply::NotPerformed => put(out, "not performed"),
        Reply::Shown {
            residual,
            count,
            may_end,
            ended,
        } => put_shown(out, names, residual, *count, *may_end, *ended),
        Reply::Answered(answer) => put_answered(out, names, answer),
        Reply::Folio(folio) => put_folio(out, names, folio),
        Reply::Watching(number) => put_counted(out, "watching ", *number),
        Reply::NoWatch(number) => put_counted(out, "no watch ", *number),
    }
}

/// The text of a reply.
///
/// A name that the table does not have prints as nothing.
pub fn reply_text(alloc: Global, names: &Names, reply: &Reply) -> Result<String, Memory>
    ensures { IfOk result (IsText (lines.reply_text names.now (reply_of reply.now))) }
{
    let mut text = String::new(alloc);
    put_reply(&mut text, names, reply)?;
    Ok(text)
}
