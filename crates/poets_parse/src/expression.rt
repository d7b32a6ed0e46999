//! Expressions, one reader for each rule of the grammar.
ghost use Rattle.std.specs.Prelude.{◌≡◌, ◌≤◌, length, IfOk};
ghost use Rattle.poets_expr.specs.Expression.{expression_of, AmountOf, KindOf};
ghost use Rattle.poets_grammar.specs.Tokens.{toks};
ghost use Rattle.poets_grammar.specs.Reading as reading;
ghost use Rattle.poets_parse.specs.code.Gives.{GivesFront, GivesExpression, LeavesLess};

use crate::build;
use crate::fault::ReadFault;
use crate::literal::{day_literal, literal, negative, resource, undefined_of};
use crate::step::{behind_sign, behind_word, first, operator, sign, word};
use poets_expr::Expr;
use poets_expr::build::boxed;
use poets_grammar::Level;
use poets_lex::{Sign, Tok, Token, Word};
use std::alloc::Global;

// expression = conjunction { "or" conjunction }
#[tactic(auto, using(crate::proofs::Loops::joining, poets_grammar::proofs::ExpressionReaders::expression_again), unfolding(poets_grammar::specs::Reading::disjunction))]
#[cycle(expression)]
pub(crate) fn expression(alloc: Global, tokens: &[Token]) -> Result<(Expr, &[Token]), ReadFault>
    ensures gives { GivesFront expression_of result (reading.expression (toks tokens.now)) }
    ensures shorter { LeavesLess tokens.now result }
{
    let (mut left, mut rest) = conjunction(alloc, tokens)?;
    while let Some((op, behind)) = operator(Level::Disjunction, rest) {
        let (right, after) = conjunction(alloc, behind)?;
        left = build::binary(alloc, op, left, right)?;
        rest = after;
    }
    Ok((left, rest))
}

// conjunction = negation { "and" negation }
#[tactic(auto, using(crate::proofs::Loops::joining), unfolding(poets_grammar::specs::Reading::conjunction))]
#[cycle(expression)]
fn conjunction(alloc: Global, tokens: &[Token]) -> Result<(Expr, &[Token]), ReadFault>
    ensures gives { GivesExpression reading.conjunction tokens.now result }
    ensures shorter { LeavesLess tokens.now result }
{
    let (mut left, mut rest) = negation(alloc, tokens)?;
    while let Some((op, behind)) = operator(Level::Conjunction, rest) {
        let (right, after) = negation(alloc, behind)?;
        left = build::binary(alloc, op, left, right)?;
        rest = after;
    }
    Ok((left, rest))
}

// negation = "not" negation | comparison
#[tactic(auto, unfolding(poets_grammar::specs::Reading::negation))]
#[cycle(expression)]
fn negation(alloc: Global, tokens: &[Token]) -> Result<(Expr, &[Token]), ReadFault>
    ensures gives { GivesExpression reading.negation tokens.now result }
    ensures shorter { LeavesLess tokens.now result }
{
    let Some(rest) = behind_word(Word::Not, tokens) else {
        return comparison(alloc, tokens);
    };
    let (operand, rest) = negation(alloc, rest)?;
    Ok((Expr::Not(boxed(alloc, operand)?), rest))
}

// comparison = sum [ ( "=" | "<>" | "<" | "<=" | ">" | ">=" ) sum ]
#[tactic(auto, unfolding(poets_grammar::specs::Reading::comparison))]
#[cycle(expression)]
fn comparison(alloc: Global, tokens: &[Token]) -> Result<(Expr, &[Token]), ReadFault>
    ensures gives { GivesExpression reading.comparison tokens.now result }
    ensures shorter { LeavesLess tokens.now result }
{
    let (left, rest) = sum(alloc, tokens)?;
    let Some((op, behind)) = operator(Level::Comparison, rest) else {
        return Ok((left, rest));
    };
    let (right, rest) = sum(alloc, behind)?;
    // Comparisons do not chain.
    if operator(Level::Comparison, rest).is_some() {
        return Err(ReadFault::at(rest));
    }
    Ok((build::binary(alloc, op, left, right)?, rest))
}

// sum = product { ( "+" | "-" ) product }
#[tactic(auto, using(crate::proofs::Loops::joining), unfolding(poets_grammar::specs::Reading::sum))]
#[cycle(expression)]
fn sum(alloc: Global, tokens: &[Token]) -> Result<(Expr, &[Token]), ReadFault>
    ensures gives { GivesExpression reading.sum tokens.now result }
    ensures shorter { LeavesLess tokens.now result }
{
    let (mut left, mut rest) = product(alloc, tokens)?;
    while let Some((op, behind)) = operator(Level::Sum, rest) {
        let (right, after) = product(alloc, behind)?;
        left = build::binary(alloc, op, left, right)?;
        rest = after;
    }
    Ok((left, rest))
}

// product = prefixed { ( "*" | "/" | "%" ) prefixed }
#[tactic(auto, using(crate::proofs::Loops::joining), unfolding(poets_grammar::specs::Reading::product))]
#[cycle(expression)]
fn product(alloc: Global, tokens: &[Token]) -> Result<(Expr, &[Token]), ReadFault>
    ensures gives { GivesExpression reading.product tokens.now result }
    ensures shorter { LeavesLess tokens.now result }
{
    let (mut left, mut rest) = prefixed(alloc, tokens)?;
    while let Some((op, behind)) = operator(Level::Product, rest) {
        let (right, after) = prefixed(alloc, behind)?;
        left = build::binary(alloc, op, left, right)?;
        rest = after;
    }
    Ok((left, rest))
}

// prefixed = "-" NUMBER | "-" prefixed | primary, where a "-" directly before a NUMBER is the first
#[tactic(auto, unfolding(poets_grammar::specs::Reading::prefixed))]
#[cycle(expression)]
fn prefixed(alloc: Global, tokens: &[Token]) -> Result<(Expr, &[Token]), ReadFault>
    ensures gives { GivesExpression reading.prefixed tokens.now result }
    ensures shorter { LeavesLess tokens.now result }
{
    let Some(rest) = behind_sign(Sign::Minus, tokens) else {
        return primary(alloc, tokens);
    };
    if let Some((Tok::Number(_), _)) = first(rest) {
        return negative(rest);
    }
    let (operand, rest) = prefixed(alloc, rest)?;
    Ok((Expr::Neg(boxed(alloc, operand)?), rest))
}

// primary = NUMBER | DAY | NAME | "[" [ "-" ] NUMBER NAME "]" | "(" expression ")", and what begins with a word
#[tactic(auto, unfolding(poets_grammar::specs::Reading::primary))]
#[cycle(expression)]
fn primary(alloc: Global, tokens: &[Token]) -> Result<(Expr, &[Token]), ReadFault>
    ensures gives { GivesExpression reading.primary tokens.now result }
    ensures shorter { LeavesLess tokens.now result }
{
    let Some((tok, rest)) = first(tokens) else {
        return Err(ReadFault::at(tokens));
    };
    match tok {
        Tok::Number(_) => literal(tokens),
        Tok::Day(_) => day_literal(tokens),
        Tok::Name(name) => Ok((Expr::Name(name), rest)),
        Tok::Word(word) => primary_word(alloc, word, rest),
        Tok::Sign(Sign::LeftBracket) => resource(rest),
        Tok::Sign(Sign::LeftParen) => closed(alloc, rest),
        Tok::Sign(_) => Err(ReadFault::at(tokens)),
    }
}

// "true" | "false" | "undefined" type | "amount" .. | "kind" .. | "res" .. | "if" .., after the word
#[cycle(expression)]
fn primary_word(alloc: Global, word: Word, tokens: &[Token]) -> Result<(Expr, &[Token]), ReadFault>
    ensures gives { GivesExpression (λ reader. reading.primary_word reader word) tokens.now result }
    ensures shorter { IfOk result (λ r. length r.1.now ≤ length tokens.now) }
{
    match word {
        Word::True => Ok((Expr::Bool(true), tokens)),
        Word::False => Ok((Expr::Bool(false), tokens)),
        Word::Undefined => undefined_of(tokens),
        Word::Amount => amount_of(alloc, tokens),
        Word::Kind => kind_of(alloc, tokens),
        Word::Res => made(alloc, tokens),
        Word::If => conditional(alloc, tokens),
        _ => Err(ReadFault::ahead_of(tokens)),
    }
}

// expression ")"
#[tactic(auto, unfolding(poets_grammar::specs::Reading::closed))]
#[cycle(expression)]
fn closed(alloc: Global, tokens: &[Token]) -> Result<(Expr, &[Token]), ReadFault>
    ensures gives { GivesExpression reading.closed tokens.now result }
    ensures shorter { LeavesLess tokens.now result }
{
    let (inside, rest) = expression(alloc, tokens)?;
    let rest = sign(Sign::RightParen, rest)?;
    Ok((inside, rest))
}

// "amount" "(" expression ")", after the word
#[tactic(auto, unfolding(poets_grammar::specs::Reading::applied))]
#[cycle(expression)]
fn amount_of(alloc: Global, tokens: &[Token]) -> Result<(Expr, &[Token]), ReadFault>
    ensures gives { GivesExpression (reading.applied AmountOf) tokens.now result }
    ensures shorter { LeavesLess tokens.now result }
{
    let inside = sign(Sign::LeftParen, tokens)?;
    let (resource, rest) = closed(alloc, inside)?;
    Ok((Expr::Amount(boxed(alloc, resource)?), rest))
}

// "kind" "(" expression ")", after the word
#[tactic(auto, unfolding(poets_grammar::specs::Reading::applied))]
#[cycle(expression)]
fn kind_of(alloc: Global, tokens: &[Token]) -> Result<(Expr, &[Token]), ReadFault>
    ensures gives { GivesExpression (reading.applied KindOf) tokens.now result }
    ensures shorter { LeavesLess tokens.now result }
{
    let inside = sign(Sign::LeftParen, tokens)?;
    let (resource, rest) = closed(alloc, inside)?;
    Ok((Expr::KindOf(boxed(alloc, resource)?), rest))
}

// "res" "(" expression "," expression ")", after the word
#[tactic(auto, unfolding(poets_grammar::specs::Reading::made))]
#[cycle(expression)]
fn made(alloc: Global, tokens: &[Token]) -> Result<(Expr, &[Token]), ReadFault>
    ensures gives { GivesExpression reading.made tokens.now result }
    ensures shorter { LeavesLess tokens.now result }
{
    let rest = sign(Sign::LeftParen, tokens)?;
    let (amount, rest) = expression(alloc, rest)?;
    let rest = sign(Sign::Comma, rest)?;
    let (kind, rest) = closed(alloc, rest)?;
    Ok((build::made(alloc, amount, kind)?, rest))
}

// "if" expression "then" expression "else" expression "end", after the first word
#[tactic(auto, unfolding(poets_grammar::specs::Reading::conditional))]
#[cycle(expression)]
fn conditional(alloc: Global, tokens: &[Token]) -> Result<(Expr, &[Token]), ReadFault>
    ensures gives { GivesExpression reading.conditional tokens.now result }
    ensures shorter { LeavesLess tokens.now result }
{
    let (condition, rest) = expression(alloc, tokens)?;
    let rest = word(Word::Then, rest)?;
    let (yes, rest) = expression(alloc, rest)?;
    let rest = word(Word::Else, rest)?;
    let (no, rest) = expression(alloc, rest)?;
    let rest = word(Word::End, rest)?;
    Ok((build::conditional(alloc, condition, yes, no)?, rest))
}
