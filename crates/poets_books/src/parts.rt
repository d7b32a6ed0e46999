//! Texts that `poets_print` writes within longer ones: of an expression, of a value and of a day.
ghost use Rattle.std.specs.Prelude.{◌≡◌, ℕ, List, ◌++◌, IfOk};
ghost use Rattle.poets_value.specs.Civil as civil;
ghost use Rattle.poets_expr.specs.Expression.{expression_of};
ghost use Rattle.poets_print.specs.Texts.{IsText};
ghost use Rattle.poets_print.specs.Texts as texts;
ghost use Rattle.poets_books.specs.code.Putting.{step_front};

use crate::lists::names_text;
use poets_command::Reply;
use poets_expr::Expr;
use poets_lex::Names;
use poets_print::{reply_text, step_text};
use poets_report::Answer;
use poets_syntax::Binders;
use poets_value::{Day, Memory, Name, Value};
use std::alloc::Global;

// What stands in a text behind its front.
#[tactic(auto, using(crate::proofs::Within::lacks_front, crate::proofs::Within::strips_front))]
fn behind<'a>(text: &'a str, front: &str) -> &'a str
    requires { (rest : List ℕ) × (text.now ≡ front.now ++ rest) }
    ensures { text.now ≡ front.now ++ result.now }
{
    let Some(rest) = text.strip_prefix(front) else {
        unreachable!();
    };
    rest
}

// What stands in a text before its end.
#[tactic(auto, using(crate::proofs::Within::lacks_end, crate::proofs::Within::strips_end))]
fn before<'a>(text: &'a str, end: &str) -> &'a str
    requires { (rest : List ℕ) × (text.now ≡ rest ++ end.now) }
    ensures { text.now ≡ result.now ++ end.now }
{
    let Some(rest) = text.strip_suffix(end) else {
        unreachable!();
    };
    rest
}

/// The four names that a report or a transmission gives to the parts of an event, as `a, b, r, t`.
pub(crate) fn binders_text(
    alloc: Global,
    names: &Names,
    binders: &Binders,
) -> Result<String, Memory>
    ensures { IfOk result (IsText (texts.binders_text names.now binders.now)) }
{
    let listed = [binders.sender, binders.receiver, binders.what, binders.day];
    names_text(alloc, names, &listed)
}

// What stands in a step ahead of its predicate.
fn front_text(alloc: Global, names: &Names, binders: &Binders) -> Result<String, Memory>
    ensures { IfOk result (IsText (step_front names.now binders.now)) }
{
    let binders = binders_text(alloc, names, binders)?;
    Ok(format!(in alloc; "transmit({binders} | ")?)
}

/// The text of an expression. `poets_print` has none of an expression alone: it is cut out of the text of a step, in
/// which each part of the event has the table's first name.
pub(crate) fn expression_text(alloc: Global, names: &Names, expr: &Expr) -> Result<String, Memory>
    ensures { IfOk result (IsText (texts.expression_text names.now (expression_of expr.now))) }
{
    let first = Name { id: 0 };
    let binders = Binders {
        sender: first,
        receiver: first,
        what: first,
        day: first,
    };
    let step = step_text(alloc, names, &binders, expr)?;
    let front = front_text(alloc, names, &binders)?;
    let rest = behind(step.as_str(), front.as_str());
    let text = before(rest, ")");
    Ok(String::from_str(alloc, text)?)
}

/// The text of a value: its literal, or the name of an agent or a kind.
///
/// A name that the table does not have prints as nothing.
pub fn value_text(alloc: Global, names: &Names, value: Value) -> Result<String, Memory>
    ensures { IfOk result (IsText (texts.value_text names.now value)) }
{
    let reply = Reply::Answered(Answer::Single(Some(value)));
    let told = reply_text(alloc, names, &reply)?;
    let text = behind(told.as_str(), "value ");
    Ok(String::from_str(alloc, text)?)
}

/// The text of a day, as `2006-05-03`.
pub fn day_text(alloc: Global, day: Day) -> Result<String, Memory>
    ensures { IfOk result (IsText (civil.day_text day)) }
{
    let bytes = day.text();
    let Ok(text) = str::from_utf8(&bytes) else {
        unreachable!();
    };
    Ok(String::from_str(alloc, text)?)
}
