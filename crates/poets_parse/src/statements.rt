//! Statements.
ghost use Rattle.std.specs.Prelude.{◌≡◌, ◌≤◌, length, IfOk, Err};
ghost use Rattle.poets_command.specs.Statements.{statement_of};
ghost use Rattle.poets_grammar.specs.Tokens.{toks, AreNatural};
ghost use Rattle.poets_grammar.specs.StatementReading as reading;
ghost use Rattle.poets_grammar.specs.Statements.{IsStatement};
ghost use Rattle.poets_grammar.specs.TooDeep.{IsDeeper, IsTooDeep, IsTooDeepStored};
ghost use Rattle.poets_parse.specs.Sentences.{AreNoSentence, AreNoSentenceFor, AreNoSentenceStored, IfSentence};
ghost use Rattle.poets_parse.specs.Sentences.{AreBegun};
ghost use Rattle.poets_parse.specs.code.Gives.{Gives};

use crate::SyntaxFault;
use crate::command::{command, command_word, whole_names};
use crate::declaration::{report, template};
use crate::depth::{is_deeper, is_too_deep};
use crate::fault::ReadFault;
use crate::step::{first, natural, sign, whole};
use poets_command::Statement;
use poets_grammar::{MOST_OPEN, MOST_OPEN_STORED};
use poets_lex::{Sign, Tok, Token, Word};
use poets_value::Memory;
use std::alloc::Global;

// statement, after the word that is its first token
fn statement_word(alloc: Global, word: Word, tokens: &[Token]) -> Result<Statement, ReadFault>
    ensures { Gives statement_of result (reading.statement_word word (toks tokens.now)) }
{
    match word {
        Word::Agents => Ok(Statement::Agents(whole_names(alloc, tokens)?)),
        Word::Kinds => Ok(Statement::Kinds(whole_names(alloc, tokens)?)),
        Word::Template => template(alloc, tokens),
        Word::Report => report(alloc, tokens),
        Word::Clerk => whole(Statement::Clerk, tokens),
        Word::Journal => whole(Statement::Journal, tokens),
        _ => Ok(Statement::Command(command_word(alloc, word, tokens)?)),
    }
}

// NUMBER ":" command
#[tactic(auto, unfolding(poets_grammar::specs::StatementReading::numbered))]
fn numbered(alloc: Global, tokens: &[Token]) -> Result<Statement, ReadFault>
    ensures { Gives statement_of result (reading.numbered (toks tokens.now)) }
{
    let (clerk, rest) = natural(tokens)?;
    let rest = sign(Sign::Colon, rest)?;
    let command = command(alloc, rest)?;
    Ok(Statement::Numbered(clerk, command))
}

// statement, by its first token
#[tactic(auto, unfolding(poets_grammar::specs::StatementReading::statement))]
fn read_statement(alloc: Global, tokens: &[Token]) -> Result<Statement, ReadFault>
    ensures { Gives statement_of result (reading.statement (toks tokens.now)) }
{
    match first(tokens) {
        Some((Tok::Word(word), rest)) => statement_word(alloc, word, rest),
        Some((Tok::Number(_), _)) => numbered(alloc, tokens),
        _ => Err(ReadFault::at(tokens)),
    }
}

// The statement that the tokens are, where no more brackets than the most are open at one place.
fn statement_within(alloc: Global, most: usize, tokens: &[Token]) -> Result<Statement, SyntaxFault>
    requires natural { AreNatural tokens.now }
    ensures found { IfOk result (λ s. IsStatement (toks tokens.now) (statement_of s)) }
    ensures shallow { IfOk result (λ _. ¬ (IsDeeper most (toks tokens.now))) }
    ensures none { result ≡ Err SyntaxFault.NoSentence → AreNoSentenceFor most (toks tokens.now) }
    ensures deep { result ≡ Err SyntaxFault.TooDeep → IsDeeper most (toks tokens.now) }
{
    if is_deeper(most, tokens) {
        return Err(SyntaxFault::TooDeep);
    }
    Ok(read_statement(alloc, tokens)?)
}

/// The statement that the tokens are, which come before a `;;`.
///
/// The time is linear in the tokens. How deep the readers call themselves is bounded by the limits of the language,
/// because a statement that is nested too deep is refused before it is read: they do so only after brackets, `not`,
/// `-`, `if` and the dot of a transmit.
pub fn statement(alloc: Global, tokens: &[Token]) -> Result<Statement, SyntaxFault>
    requires natural { AreNatural tokens.now }
    ensures found { IfOk result (λ s. IsStatement (toks tokens.now) (statement_of s)) }
    ensures shallow { IfOk result (λ _. ¬ (IsTooDeep (toks tokens.now))) }
    ensures none { result ≡ Err SyntaxFault.NoSentence → AreNoSentence (toks tokens.now) }
    ensures deep { result ≡ Err SyntaxFault.TooDeep → IsTooDeep (toks tokens.now) }
{
    statement_within(alloc, MOST_OPEN, tokens)
}

/// The statement that the tokens of a printed statement are: as `statement`, but one more bracket may be open at one
/// place.
///
/// Printing a tree opens one bracket more than its source at one place alone: `- -5` is printed as `-(-5)`.
pub fn statement_stored(alloc: Global, tokens: &[Token]) -> Result<Statement, SyntaxFault>
    requires natural { AreNatural tokens.now }
    ensures found { IfOk result (λ s. IsStatement (toks tokens.now) (statement_of s)) }
    ensures shallow { IfOk result (λ _. ¬ (IsTooDeepStored (toks tokens.now))) }
    ensures none { result ≡ Err SyntaxFault.NoSentence → AreNoSentenceStored (toks tokens.now) }
    ensures deep { result ≡ Err SyntaxFault.TooDeep → IsTooDeepStored (toks tokens.now) }
{
    statement_within(alloc, MOST_OPEN_STORED, tokens)
}

/// The greatest number of the tokens, counted from the first, with which some sentence of the grammar begins. It is 0 if
/// the tokens are too deep.
///
/// The readers look at one token, take it or give up, and never go back.
pub fn begun(alloc: Global, tokens: &[Token]) -> Result<usize, Memory>
    ensures within { IfOk result (λ count. count ≤ length tokens.now) }
    ensures whole { IfSentence (toks tokens.now) (IfOk result (λ all. all ≡ length tokens.now)) }
    ensures exact { IfOk result (AreBegun (toks tokens.now)) }
{
    if is_too_deep(tokens) {
        return Ok(0);
    }
    match read_statement(alloc, tokens).err() {
        None => Ok(tokens.len()),
        Some(ReadFault::Unfit { left }) => Ok(tokens.len().saturating_sub(left)),
        Some(ReadFault::Memory) => Err(Memory),
    }
}
