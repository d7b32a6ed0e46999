//! How deep a statement is nested.
ghost use Rattle.std.specs.Prelude.{◌≡◌, ℕ, ◌≤◌, ◌<◌, ◌+◌, ◌^◌, ◌↔◌, IsTrue, take};
ghost use Rattle.poets_grammar.specs.Tokens.{toks};
ghost use Rattle.poets_grammar.specs.TooDeep.{IsDeeper, IsTooDeep, open_at_end};
ghost use Rattle.poets_grammar.specs.TooDeep as depth;

use poets_grammar::{MOST_OPEN, MOST_OPERATORS};
use poets_lex::{Sign, Tok, Token, Word};

fn is_operator_sign(sign: Sign) -> bool
    ensures { result ≡ depth.is_operator_sign sign }
{
    match sign {
        Sign::Plus | Sign::Minus | Sign::Star | Sign::Slash | Sign::Percent => true,
        Sign::Equal | Sign::NotEqual => true,
        Sign::Less | Sign::LessEqual | Sign::Greater | Sign::GreaterEqual => true,
        Sign::Dot | Sign::DoubleBar | Sign::Semicolon => true,
        _ => false,
    }
}

fn is_operator_word(word: Word) -> bool
    ensures { result ≡ depth.is_operator_word word }
{
    match word {
        Word::And | Word::Or | Word::Not | Word::If => true,
        _ => false,
    }
}

fn is_operator(token: &Token) -> bool
    ensures { result ≡ depth.is_operator token.now.what }
{
    match &token.what {
        Tok::Sign(sign) => is_operator_sign(*sign),
        Tok::Word(word) => is_operator_word(*word),
        _ => false,
    }
}

// The number of operators.
fn operators(tokens: &[Token]) -> usize
    ensures { result ≡ depth.operators (toks tokens.now) }
{
    tokens.iter().filter(|token| is_operator(token)).count()
}

// The number of `(` that are open after the token.
fn open_behind(before: usize, token: &Token) -> usize
    requires { before + 1 < 2 ^ 64 }
    ensures { result ≡ depth.open_behind before token.now.what }
{
    match &token.what {
        Tok::Sign(Sign::LeftParen) => before + 1,
        Tok::Sign(Sign::RightParen) => before.saturating_sub(1),
        _ => before,
    }
}

// The most `(` that are open at one place.
fn deepest(tokens: &[Token]) -> usize
    ensures most { (count : ℕ) → open_at_end (take count (toks tokens.now)) ≤ result }
    ensures reached { (count : ℕ) × (open_at_end (take count (toks tokens.now)) ≡ result) }
{
    let mut here = 0;
    let mut deepest = 0;
    for token in tokens {
        here = open_behind(here, token);
        deepest = here.max(deepest);
    }
    deepest
}

// Whether more brackets than the most are open at one place, or there are more operators than a statement has.
#[tactic(auto, using(crate::proofs::Depths::only_deep))]
pub(crate) fn is_deeper(most: usize, tokens: &[Token]) -> bool
    ensures { IsTrue result ↔ IsDeeper most (toks tokens.now) }
{
    deepest(tokens) > most || operators(tokens) > MOST_OPERATORS
}

/// Whether more brackets are open at one place, or there are more operators, than a statement has.
pub fn is_too_deep(tokens: &[Token]) -> bool
    ensures { IsTrue result ↔ IsTooDeep (toks tokens.now) }
{
    is_deeper(MOST_OPEN, tokens)
}
