//! Texts that have names, and what they say.
ghost use Rattle.std.specs.Prelude.{◌≡◌, ◌++◌, Err, IfNone, IfOk, IfSome};
ghost use Rattle.std.specs.Arc.{arc_value};
ghost use Rattle.poets_lex.specs.Lexes.{Lexes};
ghost use Rattle.poets_lex.specs.Table.{Extends};
ghost use Rattle.poets_grammar.specs.Tokens.{AreNatural, toks};
ghost use Rattle.poets_syntax.specs.Contract.{contract_of};
ghost use Rattle.poets_command.specs.Calls as calls;
ghost use Rattle.poets_command.specs.Said as said;
ghost use Rattle.poets_command.specs.Statements.{statement_of};
ghost use Rattle.poets_import.specs.Phrases.{AreSentence, Called, Owed, Say, Says, Sentence};
ghost use Rattle.poets_import.specs.Phrases as phrases;
ghost use Rattle.poets_import.specs.code.Spoken.{AreNoContract, AreNoName, AreNoSentence, HasNoTokens};
ghost use Rattle.poets_import.specs.code.Spoken.{IsCalled, IsNoRegistration, IsNone, IsOtherThan, Registers, SaysNo};
ghost use Rattle.poets_import.specs.code.Spoken.{SaysNoCommand};

use poets_command::{Command, Statement};
use poets_lex::{Names, Sign, Tok, Token, Word, is_name, tokens};
use poets_parse::{Unread, statement_stored};
use poets_syntax::{Term, copy};
use poets_value::{List, Memory, Name, push};
use std::alloc::Global;
use std::sync::Arc;

// The places of names: no table has more.
const MOST_PLACES: usize = u32::MAX as usize;

// The tokens of the text, whose new names get the next numbers of the table. The text and the table are shorter
// together than a document and the table that it was read with, so there are places enough.
fn cut(alloc: Global, names: &mut Names, text: &str) -> Result<List<Token>, Unread>
    ensures cut { IfOk result (λ tokens. Lexes names.old text.now 0 tokens.items names.new) }
    ensures none { result ≡ Err Unread.Shape → HasNoTokens names.old text.now }
    ensures names { Extends names.old names.new }
{
    if text.len() + names.len() as usize >= MOST_PLACES {
        return Err(Unread::Memory);
    }
    Ok(tokens(alloc, text.as_bytes(), names)?)
}

// The statement that the tokens are, which is not too deep for one that was printed.
fn sentence(alloc: Global, tokens: &[Token]) -> Result<Statement, Unread>
    requires { AreNatural tokens.now }
    ensures said { IfOk result (λ s. AreSentence (toks tokens.now) (statement_of s)) }
    ensures none { result ≡ Err Unread.Shape → AreNoSentence (toks tokens.now) }
{
    Ok(statement_stored(alloc, tokens)?)
}

/// The statement that a text is.
pub(crate) fn statement_in(
    alloc: Global,
    names: &mut Names,
    text: &str,
) -> Result<Statement, Unread>
    ensures said { IfOk result (λ s. Says names.old text.now (Sentence (statement_of s)) names.new) }
    ensures none { result ≡ Err Unread.Shape → SaysNo Sentence names.old text.now }
    ensures names { Extends names.old names.new }
{
    let tokens = cut(alloc, names, text)?;
    sentence(alloc, tokens.as_slice())
}

// The command that a statement is.
fn command_of(statement: Statement) -> Option<Command>
    ensures some { IfSome result (λ c. statement_of statement ≡ said.Command (calls.command_of c)) }
    ensures none { IfNone result (IsOtherThan said.Command (statement_of statement)) }
{
    match statement {
        Statement::Command(command) => Some(command),
        _ => None,
    }
}

/// The command that a text is.
pub(crate) fn command_in(
    alloc: Global,
    names: &mut Names,
    text: &str,
) -> Result<Arc<Command>, Unread>
    ensures said { IfOk result (λ c.
        Says names.old text.now (Sentence (said.Command (calls.command_of (arc_value c)))) names.new) }
    ensures none { result ≡ Err Unread.Shape → SaysNoCommand names.old text.now }
    ensures names { Extends names.old names.new }
{
    let statement = statement_in(alloc, names, text)?;
    let Some(command) = command_of(statement) else {
        return Err(Unread::Shape);
    };
    match Arc::new(alloc, command) {
        Ok(command) => Ok(command),
        Err(_) => Err(Unread::Memory),
    }
}

// A token that stands in no text.
fn bare(what: Tok) -> Token
    ensures { result.what ≡ what }
{
    Token {
        what,
        from: 0,
        to: 0,
    }
}

// `register x =`, where any name stands for x.
fn registration(alloc: Global) -> Result<List<Token>, Memory>
    ensures tokens { IfOk result (λ l. toks l.items ≡ phrases.registration) }
    ensures natural { IfOk result (λ l. AreNatural l.items) }
{
    let mut tokens = List::new(alloc);
    push(&mut tokens, bare(Tok::Word(Word::Register)))?;
    push(&mut tokens, bare(Tok::Name(Name { id: 0 })))?;
    push(&mut tokens, bare(Tok::Sign(Sign::Equal)))?;
    Ok(tokens)
}

// The tokens behind `register x =`.
fn registered(alloc: Global, tokens: &[Token]) -> Result<List<Token>, Memory>
    requires { AreNatural tokens.now }
    ensures tokens { IfOk result (λ all. toks all.items ≡ phrases.registration ++ toks tokens.now) }
    ensures natural { IfOk result (λ all. AreNatural all.items) }
{
    let mut all = registration(alloc)?;
    for token in tokens {
        push(&mut all, *token)?;
    }
    Ok(all)
}

// The contract that a statement registers.
fn contract_in(alloc: Global, statement: &Statement) -> Result<Term, Unread>
    ensures some { IfOk result (λ t. Registers (contract_of t) (statement_of statement.now)) }
    ensures none { result ≡ Err Unread.Shape → IsNoRegistration (statement_of statement.now) }
{
    match statement {
        Statement::Command(Command::Register { term, .. }) => Ok(copy(alloc, &**term)?),
        _ => Err(Unread::Shape),
    }
}

// The contract that the tokens are, which could be registered.
fn contract(alloc: Global, tokens: &[Token]) -> Result<Term, Unread>
    requires { AreNatural tokens.now }
    ensures said { IfOk result (λ t. Say (toks tokens.now) (Owed (contract_of t))) }
    ensures none { result ≡ Err Unread.Shape → AreNoContract (toks tokens.now) }
{
    let registered = registered(alloc, tokens)?;
    let statement = sentence(alloc, registered.as_slice())?;
    contract_in(alloc, &statement)
}

/// What is still owed, which a text is.
pub(crate) fn owed_in(alloc: Global, names: &mut Names, text: &str) -> Result<Term, Unread>
    ensures said { IfOk result (λ t. Says names.old text.now (Owed (contract_of t)) names.new) }
    ensures none { result ≡ Err Unread.Shape → SaysNo Owed names.old text.now }
    ensures names { Extends names.old names.new }
{
    let tokens = cut(alloc, names, text)?;
    contract(alloc, tokens.as_slice())
}

// The name that is the only token.
fn name_alone(tokens: &[Token]) -> Option<Name>
    ensures some { IfSome result (λ x. Say (toks tokens.now) (Called x)) }
    ensures none { IfNone result (AreNoName (toks tokens.now)) }
{
    let [token] = tokens else {
        return None;
    };
    match token.what {
        Tok::Name(name) => Some(name),
        _ => None,
    }
}

/// The name that a text is.
pub(crate) fn name_in(alloc: Global, names: &mut Names, text: &str) -> Result<Name, Unread>
    ensures said { IfOk result (λ x. IsCalled names.old text.now x names.new) }
    ensures none { result ≡ Err Unread.Shape → IsNone IsCalled names.old text.now }
    ensures names { Extends names.old names.new }
{
    if !is_name(text) {
        return Err(Unread::Shape);
    }
    let tokens = cut(alloc, names, text)?;
    match name_alone(tokens.as_slice()) {
        Some(name) => Ok(name),
        None => Err(Unread::Shape),
    }
}
