//! Which token of the name that a fault tells causes the fault.
ghost use Rattle.std.specs.Prelude.{◌≡◌, ◌≤◌, ◌<◌, ◌+◌, length, IfOk, IfSome, IfNone};
ghost use Rattle.poets_grammar.specs.Tokens.{AreNatural, IsNatural};
ghost use Rattle.poets_mark.specs.Naming.{LacksName};
ghost use Rattle.poets_mark.specs.Naming as naming;
ghost use Rattle.poets_mark.specs.code.Named.{IsNameAt};
ghost use Rattle.poets_mark.specs.code.Named as named;

use poets_command::Statement;
use poets_lex::{Tok, Token};
use poets_parse::{SyntaxFault, statement};
use poets_session::{after_end, ahead_of_end};
use poets_types::{TypeCause, TypeFault, check_book};
use poets_value::{List, Memory, Name, push};
use std::alloc::Global;

// Whether the token is the name.
fn is_name(token: &Token, name: Name) -> bool
    ensures { result ≡ naming.is_name name token.now.what }
{
    match token.what {
        Tok::Name(found) => found == name,
        _ => false,
    }
}

// The place of the first token that is the name.
fn first_of(tokens: &[Token], name: Name) -> Option<usize>
    ensures within { IfSome result (λ place. place < length tokens.now) }
    ensures found { IfSome result (IsNameAt tokens.now name) }
    ensures none { IfNone result (LacksName tokens.now name) }
{
    for (place, token) in tokens.iter().enumerate() {
        if is_name(token, name) {
            return Some(place);
        }
    }
    None
}

// The token, or in place of the name the other one.
fn replaced(token: &Token, name: Name, other: Name) -> Token
    ensures { result ≡ named.replaced name other token.now }
{
    if is_name(token, name) {
        Token {
            what: Tok::Name(other),
            from: token.from,
            to: token.to,
        }
    } else {
        *token
    }
}

// The token, in which the other name stands for the name from the place `from` on.
fn replaced_from(token: &Token, place: usize, from: usize, name: Name, other: Name) -> Token
    ensures { IsNatural token.now.what → IsNatural result.what }
{
    if place < from {
        *token
    } else {
        replaced(token, name, other)
    }
}

// The tokens, in which the other name stands for the name from the place `from` on.
fn renamed(
    alloc: Global,
    tokens: &[Token],
    from: usize,
    name: Name,
    other: Name,
) -> Result<List<Token>, Memory>
    requires { AreNatural tokens.now }
    ensures { IfOk result (λ found. AreNatural found.items) }
{
    let mut found = List::new(alloc);
    for (place, token) in tokens.iter().enumerate() {
        push(&mut found, replaced_from(token, place, from, name, other))?;
    }
    Ok(found)
}

// What the statement says, if it is a sentence.
fn said(alloc: Global, tokens: &[Token]) -> Result<Option<Statement>, Memory>
    requires { AreNatural tokens.now }
{
    match statement(alloc, tokens) {
        Ok(said) => Ok(Some(said)),
        Err(SyntaxFault::Memory) => Err(Memory),
        Err(_) => Ok(None),
    }
}

/// What the statements say, up to the first that is no sentence.
pub(crate) fn all_said(alloc: Global, tokens: &[Token]) -> Result<List<Statement>, Memory>
    requires { AreNatural tokens.now }
{
    let mut found = List::new(alloc);
    let mut rest = tokens;
    while !rest.is_empty() {
        let Some(next) = said(alloc, ahead_of_end(rest))? else {
            break;
        };
        push(&mut found, next)?;
        rest = after_end(rest);
    }
    Ok(found)
}

// Whether the statements have the same first fault with these tokens in the statement that it is in.
fn fault_stays(
    alloc: Global,
    statements: &mut List<Statement>,
    fault: &TypeFault,
    tokens: &[Token],
) -> Result<bool, Memory>
    requires { AreNatural tokens.now }
{
    let place = (fault.statement as usize).saturating_sub(1);
    let Some(other) = said(alloc, tokens)? else {
        return Ok(false);
    };
    if statements.len() <= place {
        return Ok(false);
    }
    statements.put(place, other);
    match check_book(alloc, statements.as_slice()) {
        Ok(_) => Ok(false),
        Err(found) if found.cause == TypeCause::Memory => Err(Memory),
        Err(found) => Ok(found == *fault),
    }
}

// The last place from which the name has to be replaced by the other one so that the fault goes, found by halving: what
// stands after it is checked later than the fault is found.
fn last_needed(
    alloc: Global,
    statements: &mut List<Statement>,
    fault: &TypeFault,
    tokens: &[Token],
    first: usize,
    name: Name,
    other: Name,
) -> Result<usize, Memory>
    requires natural { AreNatural tokens.now }
    requires first { first < length tokens.now }
    ensures { IfOk result (λ place. place < length tokens.now) }
{
    let mut low = first;
    let mut high = tokens.len();
    while high - low > 1 {
        let middle = low + (high - low) / 2;
        let tried = renamed(alloc, tokens, middle, name, other)?;
        if fault_stays(alloc, statements, fault, tried.as_slice())? {
            high = middle;
        } else {
            low = middle;
        }
    }
    Ok(low)
}

// The place, if the name stands there, or else the first one.
fn place_or_first(tokens: &[Token], name: Name, place: usize, first: usize) -> usize
    requires place { place < length tokens.now }
    requires first { first < length tokens.now }
    requires named { IsNameAt tokens.now name first }
    ensures within { result < length tokens.now }
    ensures found { IsNameAt tokens.now name result }
{
    if is_name(&tokens[place], name) {
        return place;
    }
    first
}

/// The place of the token that is the name and causes the fault: without the name from there on the statement does not
/// have the fault, and without the name after it the statement still has it. `tokens` are those of the statement, `all`
/// those of the text, and `other` is a name that stands in none of them. None where no token is the name.
pub(crate) fn faulty_token(
    alloc: Global,
    all: &[Token],
    tokens: &[Token],
    fault: &TypeFault,
    name: Name,
    other: Name,
) -> Result<Option<usize>, Memory>
    requires all { AreNatural all.now }
    requires own { AreNatural tokens.now }
    ensures within { IfOk result (λ found. IfSome found (λ place. place < length tokens.now)) }
    ensures found { IfOk result (λ found. IfSome found (IsNameAt tokens.now name)) }
    ensures none { IfOk result (λ found. IfNone found (LacksName tokens.now name)) }
{
    let Some(first) = first_of(tokens, name) else {
        return Ok(None);
    };
    if first_of(&tokens[first + 1..], name).is_none() {
        return Ok(Some(first));
    }
    let mut statements = all_said(alloc, all)?;
    let place = last_needed(alloc, &mut statements, fault, tokens, first, name, other)?;
    Ok(Some(place_or_first(tokens, name, place, first)))
}
