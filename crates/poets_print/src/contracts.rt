//! The texts of contracts.
ghost use Rattle.std.specs.Prelude.{OnOk, IfOk, map};
ghost use Rattle.poets_expr.specs.Expression.{expression_of};
ghost use Rattle.poets_syntax.specs.Contract.{contract_of};
ghost use Rattle.poets_print.specs.Texts.{IsText, contract_text, call_text, binders_text};
ghost use Rattle.poets_print.specs.Texts as texts;
ghost use Rattle.poets_value.specs.code.Texts.{Puts};
ghost use Rattle.poets_print.specs.code.Putting.{more_arguments, contract_part};

use crate::expressions::put_expression;
use crate::levels::contract_level;
use crate::pieces::{put, put_name};
use poets_expr::Expr;
use poets_lex::Names;
use poets_syntax::{Binders, Term};
use poets_value::{List, Memory, Name};
use std::alloc::Global;

// Puts the four names that a transmit binds.
fn put_binders(out: &mut String, names: &Names, binders: &Binders) -> Result<(), Memory>
    ensures { OnOk result (Puts out.old out.new (binders_text names.now binders.now)) }
{
    put_name(out, names, binders.sender)?;
    put(out, ", ")?;
    put_name(out, names, binders.receiver)?;
    put(out, ", ")?;
    put_name(out, names, binders.what)?;
    put(out, ", ")?;
    put_name(out, names, binders.day)
}

// Puts a transmission without its continuation.
fn put_step(out: &mut String, names: &Names, binders: &Binders, when: &Expr) -> Result<(), Memory>
    ensures { OnOk result (Puts out.old out.new (texts.step_text names.now binders.now (expression_of when.now))) }
{
    put(out, "transmit(")?;
    put_binders(out, names, binders)?;
    put(out, " | ")?;
    put_expression(out, names, when)?;
    put(out, ")")
}

// Puts each argument after a comma.
fn put_rest(out: &mut String, names: &Names, args: &[Expr]) -> Result<(), Memory>
    ensures { OnOk result (Puts out.old out.new (more_arguments names.now args.now)) }
{
    for arg in args {
        put(out, ", ")?;
        put_expression(out, names, arg)?;
    }
    Ok(())
}

/// Puts a name with its arguments, as `f(x, y)`.
pub(crate) fn put_call(
    out: &mut String,
    names: &Names,
    name: Name,
    args: &List<Expr>,
) -> Result<(), Memory>
    ensures { OnOk result (Puts out.old out.new (call_text names.now name (map expression_of args.now.items))) }
{
    put_name(out, names, name)?;
    put(out, "(")?;
    if let [first, rest @ ..] = args.as_slice() {
        put_expression(out, names, first)?;
        put_rest(out, names, rest)?;
    }
    put(out, ")")
}

/// Puts a contract.
#[cycle(contract)]
pub(crate) fn put_contract(out: &mut String, names: &Names, term: &Term) -> Result<(), Memory>
    ensures { OnOk result (Puts out.old out.new (contract_text names.now (contract_of term.now))) }
{
    match term {
        Term::Success => put(out, "Success"),
        Term::Failure => put(out, "Failure"),
        Term::Transmit {
            binders,
            when,
            then,
        } => {
            put_step(out, names, binders, when)?;
            put(out, ". ")?;
            put_part(out, names, contract_level(then) < 4, then)
        }
        Term::Plus(left, right) => {
            put_part(out, names, contract_level(left) < 1, left)?;
            put(out, " + ")?;
            put_part(out, names, contract_level(right) <= 1, right)
        }
        Term::Par(left, right) => {
            put_part(out, names, contract_level(left) < 2, left)?;
            put(out, " || ")?;
            put_part(out, names, contract_level(right) <= 2, right)
        }
        Term::Seq(left, right) => {
            put_part(out, names, contract_level(left) < 3, left)?;
            put(out, " ; ")?;
            put_part(out, names, contract_level(right) <= 3, right)
        }
        Term::App { name, args } => put_call(out, names, *name, args),
    }
}

// Puts a part of a contract, in brackets or not.
#[cycle(contract)]
fn put_part(out: &mut String, names: &Names, in_brackets: bool, part: &Term) -> Result<(), Memory>
    ensures { OnOk result (Puts out.old out.new (contract_part names.now in_brackets part.now)) }
{
    if !in_brackets {
        return put_contract(out, names, part);
    }
    put(out, "(")?;
    put_contract(out, names, part)?;
    put(out, ")")
}

/// The text of a contract.
///
/// A name that the table does not have prints as nothing.
pub fn term_text(alloc: Global, names: &Names, term: &Term) -> Result<String, Memory>
    ensures { IfOk result (IsText (contract_text names.now (contract_of term.now))) }
{
    let mut text = String::new(alloc);
    put_contract(&mut text, names, term)?;
    Ok(text)
}

/// The text of an open transmission: the names that it gives to the parts of the event, and its predicate.
///
/// A name that the table does not have prints as nothing.
pub fn step_text(
    alloc: Global,
    names: &Names,
    binders: &Binders,
    when: &Expr,
) -> Result<String, Memory>
    ensures { IfOk result (IsText (texts.step_text names.now binders.now (expression_of when.now))) }
{
    let mut text = String::new(alloc);
    put_step(&mut text, names, binders, when)?;
    Ok(text)
}
