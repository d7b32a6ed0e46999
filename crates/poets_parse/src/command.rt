//! Commands, each after its word and up to the end of the statement.
ghost use Rattle.poets_command.specs.Calls.{command_of};
ghost use Rattle.poets_grammar.specs.Tokens.{toks};
ghost use Rattle.poets_grammar.specs.StatementReading as reading;
ghost use Rattle.poets_parse.specs.code.Gives.{Gives, expressions_of};

use crate::build::registration;
use crate::contract::whole_contract;
use crate::fault::ReadFault;
use crate::list::{arguments, names};
use crate::step::{first, last_day, last_name, name, natural, number, sign, whole, word};
use poets_command::Command;
use poets_expr::Expr;
use poets_lex::{Sign, Tok, Token, Word};
use poets_value::{Event, List, Name, Resource};
use std::alloc::Global;

// names, up to the end
#[tactic(auto, unfolding(poets_grammar::specs::StatementReading::whole_names))]
pub(crate) fn whole_names(alloc: Global, tokens: &[Token]) -> Result<List<Name>, ReadFault>
    ensures { Gives (λ names. names.items) result (reading.whole_names (toks tokens.now)) }
{
    let (names, rest) = names(alloc, tokens)?;
    whole(names, rest)
}

// "(" [ expression { "," expression } ] ")", up to the end
#[tactic(auto, unfolding(poets_grammar::specs::StatementReading::whole_arguments))]
fn whole_arguments(alloc: Global, tokens: &[Token]) -> Result<List<Expr>, ReadFault>
    ensures { Gives expressions_of result (reading.whole_arguments (toks tokens.now)) }
{
    let (args, rest) = arguments(alloc, tokens)?;
    whole(args, rest)
}

// "register" NAME "=" contract
#[tactic(auto, unfolding(poets_grammar::specs::StatementReading::register))]
fn register(alloc: Global, tokens: &[Token]) -> Result<Command, ReadFault>
    ensures { Gives command_of result (reading.register (toks tokens.now)) }
{
    let (name, rest) = name(tokens)?;
    let rest = sign(Sign::Equal, rest)?;
    let term = whole_contract(alloc, rest)?;
    Ok(registration(alloc, name, term)?)
}

// "transmit" NAME NAME NAME NUMBER NAME DAY: the contract, the sender, the receiver, the amount, the kind and the day
#[tactic(auto, unfolding(poets_grammar::specs::StatementReading::transmission))]
fn transmission(tokens: &[Token]) -> Result<Command, ReadFault>
    ensures { Gives command_of result (reading.transmission (toks tokens.now)) }
{
    let (contract, rest) = name(tokens)?;
    let (sender, rest) = name(rest)?;
    let (receiver, rest) = name(rest)?;
    let (amount, rest) = number(rest)?;
    let (kind, rest) = name(rest)?;
    let day = last_day(rest)?;
    let event = Event {
        sender,
        receiver,
        what: Resource { kind, amount },
        day,
    };
    let name = contract;
    Ok(Command::Transmit { name, event })
}

// "void" NAME NUMBER
#[tactic(auto, unfolding(poets_grammar::specs::StatementReading::withdrawal))]
fn withdrawal(tokens: &[Token]) -> Result<Command, ReadFault>
    ensures { Gives command_of result (reading.withdrawal (toks tokens.now)) }
{
    let (name, rest) = name(tokens)?;
    let (place, rest) = natural(rest)?;
    whole(Command::Void { name, place }, rest)
}

// "tally" NAME "(" [ expression { "," expression } ] ")"
#[tactic(auto, unfolding(poets_grammar::specs::StatementReading::tally))]
fn tally(alloc: Global, tokens: &[Token]) -> Result<Command, ReadFault>
    ensures { Gives command_of result (reading.tally (toks tokens.now)) }
{
    let (report, rest) = name(tokens)?;
    let args = whole_arguments(alloc, rest)?;
    Ok(Command::Tally { report, args })
}

// "portfolio" NAME "(" [ expression { "," expression } ] ")" "over" names
#[tactic(auto, unfolding(poets_grammar::specs::StatementReading::portfolio))]
fn portfolio(alloc: Global, tokens: &[Token]) -> Result<Command, ReadFault>
    ensures { Gives command_of result (reading.portfolio (toks tokens.now)) }
{
    let (report, rest) = name(tokens)?;
    let (args, rest) = arguments(alloc, rest)?;
    let rest = word(Word::Over, rest)?;
    let over = whole_names(alloc, rest)?;
    Ok(Command::Portfolio { report, args, over })
}

// "watch" NAME "(" [ expression { "," expression } ] ")"
#[tactic(auto, unfolding(poets_grammar::specs::StatementReading::watch))]
fn watch(alloc: Global, tokens: &[Token]) -> Result<Command, ReadFault>
    ensures { Gives command_of result (reading.watch (toks tokens.now)) }
{
    let (report, rest) = name(tokens)?;
    let args = whole_arguments(alloc, rest)?;
    Ok(Command::Watch { report, args })
}

// "read" NUMBER
#[tactic(auto, unfolding(poets_grammar::specs::StatementReading::read_watch))]
fn read_watch(tokens: &[Token]) -> Result<Command, ReadFault>
    ensures { Gives command_of result (reading.read_watch (toks tokens.now)) }
{
    let (number, rest) = natural(tokens)?;
    whole(Command::Read { number }, rest)
}

// command, after the word that is its first token
pub(crate) fn command_word(
    alloc: Global,
    word: Word,
    tokens: &[Token],
) -> Result<Command, ReadFault>
    ensures { Gives command_of result (reading.command_word word (toks tokens.now)) }
{
    match word {
        Word::Register => register(alloc, tokens),
        Word::Transmit => transmission(tokens),
        Word::Void => withdrawal(tokens),
        Word::End => {
            let name = last_name(tokens)?;
            Ok(Command::End { name })
        }
        Word::Show => {
            let name = last_name(tokens)?;
            Ok(Command::Show { name })
        }
        Word::Tally => tally(alloc, tokens),
        Word::Portfolio => portfolio(alloc, tokens),
        Word::Watch => watch(alloc, tokens),
        Word::Read => read_watch(tokens),
        _ => Err(ReadFault::ahead_of(tokens)),
    }
}

// command
#[tactic(auto, unfolding(poets_grammar::specs::StatementReading::command))]
pub(crate) fn command(alloc: Global, tokens: &[Token]) -> Result<Command, ReadFault>
    ensures { Gives command_of result (reading.command (toks tokens.now)) }
{
    match first(tokens) {
        Some((Tok::Word(word), rest)) => command_word(alloc, word, rest),
        _ => Err(ReadFault::at(tokens)),
    }
}
