//! The texts of expressions.
ghost use Rattle.std.specs.Prelude.{◌≡◌, ◌++◌, OnOk, codes};
ghost use Rattle.poets_expr.specs.Expression.{expression_of};
ghost use Rattle.poets_print.specs.Texts.{expression_text, op_text};
ghost use Rattle.poets_value.specs.code.Texts.{Puts};
ghost use Rattle.poets_print.specs.code.Putting.{expression_part};

use crate::levels::{denied_in_brackets, left_in_brackets, negated_in_brackets, right_in_brackets};
use crate::pieces::{
    put, put_literal_day, put_name, put_number, put_resource, put_truth, put_undefined,
};
use poets_expr::{Expr, Op};
use poets_lex::Names;
use poets_value::Memory;

fn op_text_of(op: Op) -> &'static str
    ensures { result.now ≡ op_text op }
{
    match op {
        Op::Add => "+",
        Op::Sub => "-",
        Op::Mul => "*",
        Op::Div => "/",
        Op::Rem => "%",
        Op::Eq => "=",
        Op::Ne => "<>",
        Op::Lt => "<",
        Op::Le => "<=",
        Op::Gt => ">",
        Op::Ge => ">=",
        Op::And => "and",
        Op::Or => "or",
    }
}

// Puts an operator between single spaces.
fn put_operator(out: &mut String, op: Op) -> Result<(), Memory>
    ensures { OnOk result (Puts out.old out.new (codes " " ++ op_text op ++ codes " ")) }
{
    put(out, " ")?;
    put(out, op_text_of(op))?;
    put(out, " ")
}

/// Puts an expression.
#[cycle(expression)]
pub(crate) fn put_expression(out: &mut String, names: &Names, e: &Expr) -> Result<(), Memory>
    ensures { OnOk result (Puts out.old out.new (expression_text names.now (expression_of e.now))) }
{
    match e {
        Expr::Int(number) => put_number(out, *number),
        Expr::Bool(truth) => put_truth(out, *truth),
        Expr::Day(day) => put_literal_day(out, *day),
        Expr::Res(resource) => put_resource(out, names, *resource),
        Expr::Undefined(ty) => put_undefined(out, *ty),
        Expr::Name(name) => put_name(out, names, *name),
        Expr::Neg(part) => put_prefixed(out, names, "-", negated_in_brackets(part), part),
        Expr::Not(part) => put_prefixed(out, names, "not ", denied_in_brackets(part), part),
        Expr::Amount(part) => put_prefixed(out, names, "amount", true, part),
        Expr::KindOf(part) => put_prefixed(out, names, "kind", true, part),
        Expr::Make(amount, kind) => {
            put(out, "res(")?;
            put_expression(out, names, amount)?;
            put(out, ", ")?;
            put_expression(out, names, kind)?;
            put(out, ")")
        }
        Expr::Op(op, left, right) => {
            put_part(out, names, left_in_brackets(*op, left), left)?;
            put_operator(out, *op)?;
            put_part(out, names, right_in_brackets(*op, right), right)
        }
        Expr::If(condition, first, second) => {
            put(out, "if ")?;
            put_expression(out, names, condition)?;
            put(out, " then ")?;
            put_expression(out, names, first)?;
            put(out, " else ")?;
            put_expression(out, names, second)?;
            put(out, " end")
        }
    }
}

// Puts a part of an expression, in brackets or not.
#[cycle(expression)]
fn put_part(out: &mut String, names: &Names, in_brackets: bool, part: &Expr) -> Result<(), Memory>
    ensures { OnOk result (Puts out.old out.new (expression_part names.now in_brackets part.now)) }
{
    if !in_brackets {
        return put_expression(out, names, part);
    }
    put(out, "(")?;
    put_expression(out, names, part)?;
    put(out, ")")
}

// Puts a sign or a word, and the part after it.
#[cycle(expression)]
fn put_prefixed(
    out: &mut String,
    names: &Names,
    prefix: &str,
    in_brackets: bool,
    part: &Expr,
) -> Result<(), Memory>
    ensures { OnOk result (Puts out.old out.new (prefix.now ++ expression_part names.now in_brackets part.now)) }
{
    put(out, prefix)?;
    put_part(out, names, in_brackets, part)
}
