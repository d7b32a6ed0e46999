//! Contracts, one reader for each rule of the grammar.
ghost use Rattle.std.specs.Prelude.{◌≡◌};
ghost use Rattle.poets_syntax.specs.Contract.{contract_of};
ghost use Rattle.poets_grammar.specs.Tokens.{toks};
ghost use Rattle.poets_grammar.specs.ContractReading as reading;
ghost use Rattle.poets_parse.specs.code.Gives.{Gives, GivesFront, GivesContract, LeavesLess};

use crate::expression::expression;
use crate::fault::ReadFault;
use crate::list::{arguments, binders};
use crate::step::{behind_sign, first, sign, whole};
use poets_lex::{Sign, Tok, Token, Word};
use poets_syntax::{Term, build};
use poets_value::Name;
use std::alloc::Global;

// contract = parallel { "+" parallel }
#[tactic(auto, using(crate::proofs::Loops::joining), unfolding(poets_grammar::specs::ContractReading::contract, poets_grammar::specs::ContractReading::choice))]
#[cycle(contract)]
pub(crate) fn contract(alloc: Global, tokens: &[Token]) -> Result<(Term, &[Token]), ReadFault>
    ensures gives { GivesFront contract_of result (reading.contract (toks tokens.now)) }
    ensures shorter { LeavesLess tokens.now result }
{
    let (mut left, mut rest) = parallel(alloc, tokens)?;
    while let Some(behind) = behind_sign(Sign::Plus, rest) {
        let (right, after) = parallel(alloc, behind)?;
        left = build::plus(alloc, left, right)?;
        rest = after;
    }
    Ok((left, rest))
}

// parallel = sequence { "||" sequence }
#[tactic(auto, using(crate::proofs::Loops::joining), unfolding(poets_grammar::specs::ContractReading::parallel))]
#[cycle(contract)]
fn parallel(alloc: Global, tokens: &[Token]) -> Result<(Term, &[Token]), ReadFault>
    ensures gives { GivesContract reading.parallel tokens.now result }
    ensures shorter { LeavesLess tokens.now result }
{
    let (mut left, mut rest) = sequence(alloc, tokens)?;
    while let Some(behind) = behind_sign(Sign::DoubleBar, rest) {
        let (right, after) = sequence(alloc, behind)?;
        left = build::par(alloc, left, right)?;
        rest = after;
    }
    Ok((left, rest))
}

// sequence = simple { ";" simple }
#[tactic(auto, using(crate::proofs::Loops::joining), unfolding(poets_grammar::specs::ContractReading::sequence))]
#[cycle(contract)]
fn sequence(alloc: Global, tokens: &[Token]) -> Result<(Term, &[Token]), ReadFault>
    ensures gives { GivesContract reading.sequence tokens.now result }
    ensures shorter { LeavesLess tokens.now result }
{
    let (mut left, mut rest) = simple(alloc, tokens)?;
    while let Some(behind) = behind_sign(Sign::Semicolon, rest) {
        let (right, after) = simple(alloc, behind)?;
        left = build::seq(alloc, left, right)?;
        rest = after;
    }
    Ok((left, rest))
}

// simple, by its first token
#[tactic(auto, using(poets_grammar::proofs::ContractReaders::simple_again), unfolding(poets_grammar::specs::ContractReading::simple_step))]
#[cycle(contract)]
fn simple(alloc: Global, tokens: &[Token]) -> Result<(Term, &[Token]), ReadFault>
    ensures gives { GivesFront contract_of result (reading.simple (toks tokens.now)) }
    ensures shorter { LeavesLess tokens.now result }
{
    match first(tokens) {
        Some((Tok::Word(Word::Transmit), rest)) => transmit(alloc, rest),
        Some((Tok::Word(Word::Success), rest)) => Ok((Term::Success, rest)),
        Some((Tok::Word(Word::Failure), rest)) => Ok((Term::Failure, rest)),
        Some((Tok::Name(name), rest)) => application(alloc, name, rest),
        Some((Tok::Sign(Sign::LeftParen), rest)) => closed(alloc, rest),
        _ => Err(ReadFault::at(tokens)),
    }
}

// contract ")"
#[tactic(auto, unfolding(poets_grammar::specs::ContractReading::closed_contract, poets_grammar::specs::ContractReading::contract))]
#[cycle(contract)]
fn closed(alloc: Global, tokens: &[Token]) -> Result<(Term, &[Token]), ReadFault>
    ensures gives { GivesContract reading.closed_contract tokens.now result }
    ensures shorter { LeavesLess tokens.now result }
{
    let (inside, rest) = contract(alloc, tokens)?;
    let rest = sign(Sign::RightParen, rest)?;
    Ok((inside, rest))
}

// "transmit" "(" NAME "," NAME "," NAME "," NAME "|" expr ")" "." simple, after the word
#[tactic(auto, unfolding(poets_grammar::specs::ContractReading::transmit))]
#[cycle(contract)]
fn transmit(alloc: Global, tokens: &[Token]) -> Result<(Term, &[Token]), ReadFault>
    ensures gives { GivesContract reading.transmit tokens.now result }
    ensures shorter { LeavesLess tokens.now result }
{
    let rest = sign(Sign::LeftParen, tokens)?;
    let (binders, rest) = binders(rest)?;
    let rest = sign(Sign::Bar, rest)?;
    let (when, rest) = expression(alloc, rest)?;
    let rest = sign(Sign::RightParen, rest)?;
    let rest = sign(Sign::Dot, rest)?;
    let (then, rest) = simple(alloc, rest)?;
    Ok((build::transmit(alloc, binders, when, then)?, rest))
}

// call, after its name
#[tactic(auto, unfolding(poets_grammar::specs::ContractReading::application))]
fn application(alloc: Global, name: Name, tokens: &[Token]) -> Result<(Term, &[Token]), ReadFault>
    ensures gives { GivesFront contract_of result (reading.application name (toks tokens.now)) }
    ensures shorter { LeavesLess tokens.now result }
{
    let (args, rest) = arguments(alloc, tokens)?;
    Ok((Term::App { name, args }, rest))
}

// contract, up to the end
#[tactic(auto, unfolding(poets_grammar::specs::ContractReading::whole_contract))]
pub(crate) fn whole_contract(alloc: Global, tokens: &[Token]) -> Result<Term, ReadFault>
    ensures { Gives contract_of result (reading.whole_contract (toks tokens.now)) }
{
    let (contract, rest) = contract(alloc, tokens)?;
    whole(contract, rest)
}
