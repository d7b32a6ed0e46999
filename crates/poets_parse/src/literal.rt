//! Operands of one value: numbers, days and resources, and "undefined".
ghost use Rattle.std.specs.Prelude.{◌≡◌, ◌≤ℤ◌, pos, IfOk};
ghost use Rattle.poets_expr.specs.Expression.{expression_of};
ghost use Rattle.poets_grammar.specs.Tokens.{toks};
ghost use Rattle.poets_grammar.specs.Reading as reading;
ghost use Rattle.poets_parse.specs.code.Gives.{GivesFront, LeavesLess};

use crate::fault::ReadFault;
use crate::step::{behind_sign, name, number, sign, type_name};
use poets_expr::Expr;
use poets_lex::{Sign, Tok, Token};
use poets_value::Resource;

// NUMBER NAME "]"
#[tactic(auto, unfolding(poets_grammar::specs::Reading::amount))]
fn amount(tokens: &[Token]) -> Result<(Resource, &[Token]), ReadFault>
    ensures gives { GivesFront (λ x. x) result (reading.amount (toks tokens.now)) }
    ensures natural { IfOk result (λ r. pos 0 ≤ℤ r.0.amount) }
    ensures shorter { LeavesLess tokens.now result }
{
    let (amount, rest) = number(tokens)?;
    let (kind, rest) = name(rest)?;
    let rest = sign(Sign::RightBracket, rest)?;
    Ok((Resource { amount, kind }, rest))
}

// The same, of a resource that is held
#[tactic(auto, unfolding(poets_grammar::specs::Reading::credit))]
fn credit(tokens: &[Token]) -> Result<(Expr, &[Token]), ReadFault>
    ensures gives { GivesFront expression_of result (reading.credit (toks tokens.now)) }
    ensures shorter { LeavesLess tokens.now result }
{
    let (resource, rest) = amount(tokens)?;
    Ok((Expr::Res(resource), rest))
}

// The same, after the "-" of a resource that is owed
#[tactic(auto, unfolding(poets_grammar::specs::Reading::debt))]
fn debt(tokens: &[Token]) -> Result<(Expr, &[Token]), ReadFault>
    ensures gives { GivesFront expression_of result (reading.debt (toks tokens.now)) }
    ensures shorter { LeavesLess tokens.now result }
{
    let (owed, rest) = amount(tokens)?;
    let amount = -owed.amount;
    let kind = owed.kind;
    Ok((Expr::Res(Resource { amount, kind }), rest))
}

// "[" NUMBER NAME "]" | "[" "-" NUMBER NAME "]", after the bracket
#[tactic(auto, unfolding(poets_grammar::specs::Reading::resource))]
pub(crate) fn resource(tokens: &[Token]) -> Result<(Expr, &[Token]), ReadFault>
    ensures gives { GivesFront expression_of result (reading.resource (toks tokens.now)) }
    ensures shorter { LeavesLess tokens.now result }
{
    match behind_sign(Sign::Minus, tokens) {
        Some(rest) => debt(rest),
        None => credit(tokens),
    }
}

// "undefined" type, after the word
#[tactic(auto, unfolding(poets_grammar::specs::Reading::undefined_of))]
pub(crate) fn undefined_of(tokens: &[Token]) -> Result<(Expr, &[Token]), ReadFault>
    ensures gives { GivesFront expression_of result (reading.undefined_of (toks tokens.now)) }
    ensures shorter { LeavesLess tokens.now result }
{
    let (ty, rest) = type_name(tokens)?;
    Ok((Expr::Undefined(ty), rest))
}

// "-" NUMBER, after the sign
#[tactic(auto, unfolding(poets_grammar::specs::Reading::negative))]
pub(crate) fn negative(tokens: &[Token]) -> Result<(Expr, &[Token]), ReadFault>
    ensures gives { GivesFront expression_of result (reading.negative (toks tokens.now)) }
    ensures shorter { LeavesLess tokens.now result }
{
    let (number, rest) = number(tokens)?;
    Ok((Expr::Int(-number), rest))
}

// NUMBER
#[tactic(auto, unfolding(poets_grammar::specs::Reading::literal))]
pub(crate) fn literal(tokens: &[Token]) -> Result<(Expr, &[Token]), ReadFault>
    ensures gives { GivesFront expression_of result (reading.literal (toks tokens.now)) }
    ensures shorter { LeavesLess tokens.now result }
{
    let (number, rest) = number(tokens)?;
    Ok((Expr::Int(number), rest))
}

// DAY
pub(crate) fn day_literal(tokens: &[Token]) -> Result<(Expr, &[Token]), ReadFault>
    ensures gives { GivesFront expression_of result (reading.day_literal (toks tokens.now)) }
    ensures shorter { LeavesLess tokens.now result }
{
    let Some((token, rest)) = tokens.split_first() else {
        return Err(ReadFault::at(tokens));
    };
    match &token.what {
        Tok::Day(day) => Ok((Expr::Day(*day), rest)),
        _ => Err(ReadFault::at(tokens)),
    }
}
