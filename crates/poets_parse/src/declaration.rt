//! Templates and reports, each after its word and up to the end of the statement.
ghost use Rattle.poets_expr.specs.Expression.{expression_of};
ghost use Rattle.poets_command.specs.Statements.{statement_of};
ghost use Rattle.poets_grammar.specs.Tokens.{toks};
ghost use Rattle.poets_grammar.specs.Reading as expressions;
ghost use Rattle.poets_grammar.specs.StatementReading as reading;
ghost use Rattle.poets_parse.specs.code.Gives.{Gives, GivesFront, head_of, start_of, step_of};

use crate::contract::whole_contract;
use crate::expression::expression;
use crate::fault::ReadFault;
use crate::list::{binders, parameters};
use crate::step::{behind_word, name, sign, type_name, whole, word};
use poets_command::Statement;
use poets_expr::Expr;
use poets_lex::{Sign, Token, Word};
use poets_report::Report;
use poets_syntax::{Binders, Param, Template};
use poets_value::{List, Name, Ty};
use std::alloc::Global;

// "template" NAME "(" [ params ] ")" "=" contract
#[tactic(auto, unfolding(poets_grammar::specs::StatementReading::template))]
pub(crate) fn template(alloc: Global, tokens: &[Token]) -> Result<Statement, ReadFault>
    ensures { Gives statement_of result (reading.template (toks tokens.now)) }
{
    let (name, rest) = name(tokens)?;
    let (params, rest) = parameters(alloc, rest)?;
    let rest = sign(Sign::Equal, rest)?;
    let body = whole_contract(alloc, rest)?;
    Ok(Statement::Template(Template { name, params, body }))
}

// NAME "(" [ params ] ")" ":" type "="
#[tactic(auto, unfolding(poets_grammar::specs::StatementReading::report_head))]
fn report_head(
    alloc: Global,
    tokens: &[Token],
) -> Result<((Name, List<Param>, Ty), &[Token]), ReadFault>
    ensures { GivesFront head_of result (reading.report_head (toks tokens.now)) }
{
    let (name, rest) = name(tokens)?;
    let (params, rest) = parameters(alloc, rest)?;
    let rest = sign(Sign::Colon, rest)?;
    let (ty, rest) = type_name(rest)?;
    let rest = sign(Sign::Equal, rest)?;
    Ok(((name, params, ty), rest))
}

// "fold" NAME "=" expression
#[tactic(auto, unfolding(poets_grammar::specs::StatementReading::report_start))]
fn report_start(alloc: Global, tokens: &[Token]) -> Result<((Name, Expr), &[Token]), ReadFault>
    ensures { GivesFront start_of result (reading.report_start (toks tokens.now)) }
{
    let rest = word(Word::Fold, tokens)?;
    let (carry, rest) = name(rest)?;
    let rest = sign(Sign::Equal, rest)?;
    let (start, rest) = expression(alloc, rest)?;
    Ok(((carry, start), rest))
}

// "with" "(" NAME "," NAME "," NAME "," NAME ")" "in"
#[tactic(auto, unfolding(poets_grammar::specs::StatementReading::report_binders))]
fn report_binders(tokens: &[Token]) -> Result<(Binders, &[Token]), ReadFault>
    ensures { GivesFront (λ x. x) result (reading.report_binders (toks tokens.now)) }
{
    let rest = word(Word::With, tokens)?;
    let rest = sign(Sign::LeftParen, rest)?;
    let (binders, rest) = binders(rest)?;
    let rest = sign(Sign::RightParen, rest)?;
    let rest = word(Word::In, rest)?;
    Ok((binders, rest))
}

// expression, up to the end
#[tactic(auto, unfolding(poets_grammar::specs::Reading::whole_expression))]
fn whole_expression(alloc: Global, tokens: &[Token]) -> Result<Expr, ReadFault>
    ensures { Gives expression_of result (expressions.whole_expression (toks tokens.now)) }
{
    let (expression, rest) = expression(alloc, tokens)?;
    whole(expression, rest)
}

// expression [ "by" expression ]
#[tactic(auto, unfolding(poets_grammar::specs::StatementReading::report_step))]
fn report_step(alloc: Global, tokens: &[Token]) -> Result<(Expr, Option<Expr>), ReadFault>
    ensures { Gives step_of result (reading.report_step (toks tokens.now)) }
{
    let (step, rest) = expression(alloc, tokens)?;
    match behind_word(Word::By, rest) {
        Some(behind) => {
            let key = whole_expression(alloc, behind)?;
            Ok((step, Some(key)))
        }
        None => whole((step, None), rest),
    }
}

// "report" NAME "(" [ params ] ")" ":" type "=" "fold" NAME "=" expression
// "with" "(" NAME "," NAME "," NAME "," NAME ")" "in" expression [ "by" expression ]
#[tactic(auto, unfolding(poets_grammar::specs::StatementReading::report))]
pub(crate) fn report(alloc: Global, tokens: &[Token]) -> Result<Statement, ReadFault>
    ensures { Gives statement_of result (reading.report (toks tokens.now)) }
{
    let ((name, params, ty), rest) = report_head(alloc, tokens)?;
    let ((carry, start), rest) = report_start(alloc, rest)?;
    let (binders, rest) = report_binders(rest)?;
    let (step, key) = report_step(alloc, rest)?;
    Ok(Statement::Report(Report {
        name,
        params,
        ty,
        start,
        carry,
        binders,
        step,
        key,
    }))
}
