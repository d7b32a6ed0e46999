//! Lists: items with a comma between them, and such lists in brackets.
ghost use Rattle.poets_grammar.specs.Tokens.{toks};
ghost use Rattle.poets_grammar.specs.Reading as reading;
ghost use Rattle.poets_grammar.specs.ContractReading as contracts;
ghost use Rattle.poets_grammar.specs.StatementReading as statements;
ghost use Rattle.poets_parse.specs.code.Gives.{GivesFront, GivesItems, GivesArguments, LeavesLess};

use crate::expression::expression;
use crate::fault::ReadFault;
use crate::step::{behind_sign, name, sign, type_name};
use poets_expr::Expr;
use poets_lex::{Sign, Token};
use poets_syntax::{Binders, Param};
use poets_value::{List, Name, push};
use std::alloc::Global;

// NAME "," NAME "," NAME "," NAME
#[tactic(auto, unfolding(poets_grammar::specs::ContractReading::binders))]
pub(crate) fn binders(tokens: &[Token]) -> Result<(Binders, &[Token]), ReadFault>
    ensures gives { GivesFront (λ x. x) result (contracts.binders (toks tokens.now)) }
    ensures shorter { LeavesLess tokens.now result }
{
    let (sender, rest) = name(tokens)?;
    let rest = sign(Sign::Comma, rest)?;
    let (receiver, rest) = name(rest)?;
    let rest = sign(Sign::Comma, rest)?;
    let (what, rest) = name(rest)?;
    let rest = sign(Sign::Comma, rest)?;
    let (day, rest) = name(rest)?;
    let binders = Binders {
        sender,
        receiver,
        what,
        day,
    };
    Ok((binders, rest))
}

// names = NAME { "," NAME }
#[tactic(auto, using(crate::proofs::Lists::listing))]
pub(crate) fn names(alloc: Global, tokens: &[Token]) -> Result<(List<Name>, &[Token]), ReadFault>
    ensures gives { GivesItems result (reading.listed reading.name (toks tokens.now)) }
    ensures shorter { LeavesLess tokens.now result }
{
    let mut names = List::new(alloc);
    let mut rest = tokens;
    loop {
        let (name, behind) = name(rest)?;
        push(&mut names, name)?;
        let Some(next) = behind_sign(Sign::Comma, behind) else {
            return Ok((names, behind));
        };
        rest = next;
    }
}

// NAME ":" type
#[tactic(auto, unfolding(poets_grammar::specs::StatementReading::parameter))]
fn parameter(tokens: &[Token]) -> Result<(Param, &[Token]), ReadFault>
    ensures gives { GivesFront (λ x. x) result (statements.parameter (toks tokens.now)) }
    ensures shorter { LeavesLess tokens.now result }
{
    let (name, rest) = name(tokens)?;
    let rest = sign(Sign::Colon, rest)?;
    let (ty, rest) = type_name(rest)?;
    Ok((Param { name, ty }, rest))
}

// params = NAME ":" type { "," NAME ":" type }
#[tactic(auto, using(crate::proofs::Lists::listing))]
fn some_parameters(alloc: Global, tokens: &[Token]) -> Result<(List<Param>, &[Token]), ReadFault>
    ensures gives { GivesItems result (reading.listed statements.parameter (toks tokens.now)) }
    ensures shorter { LeavesLess tokens.now result }
{
    let mut params = List::new(alloc);
    let mut rest = tokens;
    loop {
        let (param, behind) = parameter(rest)?;
        push(&mut params, param)?;
        let Some(next) = behind_sign(Sign::Comma, behind) else {
            return Ok((params, behind));
        };
        rest = next;
    }
}

// "(" [ params ] ")"
#[tactic(auto, unfolding(poets_grammar::specs::StatementReading::parameters, poets_grammar::specs::Reading::bracketed, poets_grammar::specs::Reading::some_listed))]
pub(crate) fn parameters(
    alloc: Global,
    tokens: &[Token],
) -> Result<(List<Param>, &[Token]), ReadFault>
    ensures gives { GivesItems result (statements.parameters (toks tokens.now)) }
    ensures shorter { LeavesLess tokens.now result }
{
    let inside = sign(Sign::LeftParen, tokens)?;
    if let Some(rest) = behind_sign(Sign::RightParen, inside) {
        return Ok((List::new(alloc), rest));
    }
    let (params, rest) = some_parameters(alloc, inside)?;
    let rest = sign(Sign::RightParen, rest)?;
    Ok((params, rest))
}

// expression { "," expression }
#[tactic(auto, using(crate::proofs::Lists::listing))]
fn some_arguments(alloc: Global, tokens: &[Token]) -> Result<(List<Expr>, &[Token]), ReadFault>
    ensures gives { GivesArguments result (reading.listed reading.expression (toks tokens.now)) }
    ensures shorter { LeavesLess tokens.now result }
{
    let mut args = List::new(alloc);
    let mut rest = tokens;
    loop {
        let (arg, behind) = expression(alloc, rest)?;
        push(&mut args, arg)?;
        let Some(next) = behind_sign(Sign::Comma, behind) else {
            return Ok((args, behind));
        };
        rest = next;
    }
}

// "(" [ expression { "," expression } ] ")"
#[tactic(auto, unfolding(poets_grammar::specs::Reading::arguments, poets_grammar::specs::Reading::bracketed, poets_grammar::specs::Reading::some_listed))]
pub(crate) fn arguments(
    alloc: Global,
    tokens: &[Token],
) -> Result<(List<Expr>, &[Token]), ReadFault>
    ensures gives { GivesArguments result (reading.arguments (toks tokens.now)) }
    ensures shorter { LeavesLess tokens.now result }
{
    let inside = sign(Sign::LeftParen, tokens)?;
    if let Some(rest) = behind_sign(Sign::RightParen, inside) {
        return Ok((List::new(alloc), rest));
    }
    let (args, rest) = some_arguments(alloc, inside)?;
    let rest = sign(Sign::RightParen, rest)?;
    Ok((args, rest))
}
