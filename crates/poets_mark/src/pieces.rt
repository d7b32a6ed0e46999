//! The tokens of statements.
ghost use Rattle.std.specs.Prelude.{◌≡◌, ◌-◌};
ghost use Rattle.poets_mark.specs.Places.{statement_tokens};

use poets_lex::Token;
use poets_session::after_end;

/// The tokens from the statement with the number on.
pub(crate) fn from_statement(tokens: &[Token], number: u64) -> &[Token]
    ensures { result.now ≡ statement_tokens (number - 1) tokens.now }
{
    let mut rest = tokens;
    for _ in 1..number {
        rest = after_end(rest);
    }
    rest
}
