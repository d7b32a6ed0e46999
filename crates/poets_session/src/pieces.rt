//! The tokens of statements.
ghost use Rattle.std.specs.Prelude.{◌≡◌, ◌≢◌, [], ◌<◌, ◌≤◌, length, IfSome, IfNone};
ghost use Rattle.poets_grammar.specs.Tokens.{AreNatural};
ghost use Rattle.poets_session.specs.Pieces as pieces;
ghost use Rattle.poets_session.specs.code.Splitting.{AreCutInto, IsCutAt, IsUncut, StandAheadOfEnd, HaveNoEnd};

use poets_lex::{Sign, Tok, Token};

// Whether the token ends a statement.
fn is_end(token: &Token) -> bool
    ensures { result ≡ pieces.is_end token.now.what }
{
    match token.what {
        Tok::Sign(Sign::DoubleSemicolon) => true,
        _ => false,
    }
}

// The number of tokens ahead of the first `;;`, if there is one.
fn tokens_ahead(tokens: &[Token]) -> Option<usize>
    ensures found { IfSome result (StandAheadOfEnd tokens.now) }
    ensures cut { IfSome result (IsCutAt tokens.now) }
    ensures none { IfNone result (HaveNoEnd tokens.now) }
    ensures whole { IfNone result (IsUncut tokens.now) }
{
    for (place, token) in tokens.iter().enumerate() {
        if is_end(token) {
            return Some(place);
        }
    }
    None
}

/// The tokens of the first statement, whether a `;;` ends it, and the tokens after it.
pub(crate) fn first_piece(tokens: &[Token]) -> (&[Token], bool, &[Token])
    requires { tokens.now ≢ [] }
    ensures piece { AreCutInto tokens.now result.0.now result.1 result.2.now }
    ensures shorter { length result.2.now < length tokens.now }
    ensures natural { AreNatural tokens.now → AreNatural result.0.now × AreNatural result.2.now }
{
    match tokens_ahead(tokens) {
        Some(length) => (&tokens[..length], true, &tokens[length + 1..]),
        None => (tokens, false, &[]),
    }
}

/// The tokens ahead of the first `;;`.
pub fn ahead_of_end(tokens: &[Token]) -> &[Token]
    ensures ahead { result.now ≡ pieces.ahead_of_end tokens.now }
    ensures few { length result.now ≤ length tokens.now }
{
    match tokens_ahead(tokens) {
        Some(length) => &tokens[..length],
        None => tokens,
    }
}

/// The tokens after the first `;;`.
pub fn after_end(tokens: &[Token]) -> &[Token]
    ensures { result.now ≡ pieces.after_end tokens.now }
{
    match tokens_ahead(tokens) {
        Some(length) => &tokens[length + 1..],
        None => &[],
    }
}
