//! Replies in values of JSON. Names stand in the table.
ghost use Rattle.std.specs.Prelude.{◌≡◌, IfOk, IfSome, option_map};
ghost use Rattle.serde_json.specs.View.{view};
ghost use Rattle.poets_value.specs.Civil.{IsDayNumber};
ghost use Rattle.poets_expr.specs.Env.{declared_of};
ghost use Rattle.poets_syntax.specs.Contract.{contract_of};
ghost use Rattle.poets_report.specs.Answers.{answer_of};
ghost use Rattle.poets_command.specs.Calls.{reply_of};
ghost use Rattle.poets_literals.specs.Declared.{IsPlaced};
ghost use Rattle.poets_json.specs.Document.{reply_data};
ghost use Rattle.poets_import.specs.Reading.{HasValues};
ghost use Rattle.poets_import.specs.code.Finding.{FindsBare, FindsOnly, FindsSome, IsBare, IsPlain};
ghost use Rattle.poets_import.specs.code.Finding.{IsTold, IsToldWith, ShowsOwed};
ghost use Rattle.poets_import.specs.code.Telling.{answer_told, day_told, name_told};
ghost use Rattle.poets_import.specs.code.Telling as telling;

use crate::answers::{answer_in, folio_in};
use crate::members::{number_at, text_at, truth_at};
use poets_command::Reply;
use poets_expr::Decls;
use poets_lex::Names;
use poets_literals::read_day;
use poets_parse::Unread;
use poets_report::Answer;
use poets_syntax::Term;
use poets_value::{Day, Name};
use serde_json::Value as Json;
use std::alloc::Global;

// The reply that its words alone tell.
fn word_reply(kind: &str) -> Option<Reply>
    ensures reply { option_map reply_of result ≡ telling.word_reply kind.now }
    ensures plain { IfSome result (λ r. IsPlain (reply_of r)) }
{
    match kind {
        "hopeless" => Some(Reply::Hopeless),
        "too large" => Some(Reply::TooLarge),
        "ended" => Some(Reply::Ended),
        "unmatched" => Some(Reply::Unmatched),
        "ended now" => Some(Reply::EndedNow),
        "already ended" => Some(Reply::AlreadyEnded),
        "not performed" => Some(Reply::NotPerformed),
        _ => None,
    }
}

// The reply of these words that tells the number of a contract, of a watch, or of an event.
fn numbered_reply(kind: &str, value: &Json) -> Option<Reply>
    ensures reply { option_map reply_of result ≡ telling.numbered_reply kind.now (view value.now) }
    ensures plain { IfSome result (λ r. IsPlain (reply_of r)) }
{
    match kind {
        "registered" => Some(Reply::Registered(number_at(value, "id")?)),
        "name taken" => Some(Reply::NameTaken(number_at(value, "id")?)),
        "no event" => Some(Reply::NoEvent(number_at(value, "number")?)),
        "watching" => Some(Reply::Watching(number_at(value, "number")?)),
        "no watch" => Some(Reply::NoWatch(number_at(value, "number")?)),
        _ => None,
    }
}

// The reply of these words that tells how many events there are.
fn counted_reply(kind: &str, value: &Json) -> Option<Reply>
    ensures reply { option_map reply_of result ≡ telling.counted_reply kind.now (view value.now) }
    ensures plain { IfSome result (λ r. IsPlain (reply_of r)) }
{
    let count = number_at(value, "count")?;
    let may_end = truth_at(value, "may_end")?;
    match kind {
        "recorded" => Some(Reply::Recorded { count, may_end }),
        "voided" => Some(Reply::Voided { count, may_end }),
        _ => None,
    }
}

// The reply of these words that has neither names nor values nor a day.
fn plain_reply(kind: &str, value: &Json) -> Option<Reply>
    ensures reply { option_map reply_of result ≡ telling.plain_reply kind.now (view value.now) }
    ensures plain { IfSome result (λ r. IsPlain (reply_of r)) }
{
    if let Some(reply) = word_reply(kind) {
        return Some(reply);
    }
    if let Some(reply) = numbered_reply(kind, value) {
        return Some(reply);
    }
    counted_reply(kind, value)
}

// The name that no contract has.
fn missing_name(names: &Names, value: &Json) -> Option<Name>
    ensures told { IfSome result (IsPlaced names.now) }
    ensures only { FindsSome (IsPlaced names.now) (name_told names.now) (view value.now) result }
{
    names.find(text_at(value, "name")?)
}

// The later day of an event that is recorded.
fn later_day(value: &Json) -> Option<Day>
    ensures told { IfSome result IsDayNumber }
    ensures only { FindsSome IsDayNumber day_told (view value.now) result }
{
    read_day(text_at(value, "day")?)
}

// The reply that shows what is still owed.
fn shown(value: &Json, owed: Option<Term>) -> Option<Reply>
    ensures reply { option_map reply_of result ≡ telling.shown_reply (option_map contract_of owed) (view value.now) }
    ensures owed { IfSome result (λ r. ShowsOwed (option_map contract_of owed) (reply_of r)) }
    ensures told { IfSome result (λ r. telling.IsShown (reply_of r)) }
{
    let residual = owed?;
    let count = number_at(value, "count")?;
    let may_end = truth_at(value, "may_end")?;
    let ended = truth_at(value, "ended")?;
    Some(Reply::Shown {
        residual,
        count,
        may_end,
        ended,
    })
}

// The answer of a report.
fn answered(alloc: Global, names: &Names, decls: &Decls, value: &Json) -> Result<Answer, Unread>
    ensures told { IfOk result (λ a. HasValues names.now (declared_of decls.now.names) (answer_of a)) }
    ensures only { FindsOnly answer_of (HasValues names.now (declared_of decls.now.names))
        (answer_told names.now) (view value.now) result }
{
    let Some(answer) = value.get("answer") else {
        return Err(Unread::Shape);
    };
    answer_in(alloc, names, decls, answer)
}

// The reply of these words that has no values.
fn bare_reply(names: &Names, kind: &str, value: &Json, owed: Option<Term>) -> Option<Reply>
    ensures told { IfSome result (λ r. IsBare names.now (option_map contract_of owed) (reply_of r)) }
    ensures only { FindsBare names.now (option_map contract_of owed) kind.now (view value.now)
        (option_map reply_of result) }
{
    match kind {
        "no contract" => Some(Reply::NoContract(missing_name(names, value)?)),
        "late" => Some(Reply::Late(later_day(value)?)),
        "shown" => shown(value, owed),
        _ => plain_reply(kind, value),
    }
}

/// The reply that a value tells, where this is still owed.
pub(crate) fn reply_in(
    alloc: Global,
    names: &Names,
    decls: &Decls,
    value: &Json,
    owed: Option<Term>,
) -> Result<Reply, Unread>
    ensures told { IfOk result (λ r. IsTold names.now (declared_of decls.now.names) (reply_of r)) }
    ensures owed { IfOk result (λ r. ShowsOwed (option_map contract_of owed) (reply_of r)) }
    ensures only { FindsOnly reply_of
        (IsToldWith names.now (declared_of decls.now.names) (option_map contract_of owed))
        (reply_data names.now) (view value.now) result }
{
    let Some(kind) = text_at(value, "kind") else {
        return Err(Unread::Shape);
    };
    match kind {
        "answered" => Ok(Reply::Answered(answered(alloc, names, decls, value)?)),
        "portfolio" => Ok(Reply::Folio(folio_in(alloc, names, decls, value)?)),
        _ => match bare_reply(names, kind, value, owed) {
            Some(reply) => Ok(reply),
            None => Err(Unread::Shape),
        },
    }
}
