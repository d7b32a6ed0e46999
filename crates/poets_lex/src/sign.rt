//! Signs at the start of a text.
ghost use Rattle.std.specs.Prelude.{◌≡◌, ◌≢◌, ℕ, ◌≤◌, List, length, IfSome, IfNone, IsNone, ◌↔◌};
ghost use Rattle.poets_lex.specs.Texts.{sign_text};
ghost use Rattle.poets_lex.specs.Bytes.{Begins};
ghost use Rattle.poets_lex.specs.Lexes.{IsLongestSign};
ghost use Rattle.poets_lex.specs.declared.token.Sign.{Sign};

use crate::Sign;

// The longest sign that begins the text.
pub(crate) fn sign_of(text: &[u8]) -> Option<Sign>
    ensures begins { IfSome result (λ sign. Begins (sign_text sign) text.now) }
    ensures longest { IfSome result (λ sign. IsLongestSign sign text.now) }
    ensures none { IfNone result ((sign : Sign) → ¬ (Begins (sign_text sign) text.now)) }
{
    let sign = match text {
        [b';', b';', ..] => Sign::DoubleSemicolon,
        [b';', ..] => Sign::Semicolon,
        [b'|', b'|', ..] => Sign::DoubleBar,
        [b'|', ..] => Sign::Bar,
        [b'<', b'=', ..] => Sign::LessEqual,
        [b'<', b'>', ..] => Sign::NotEqual,
        [b'<', ..] => Sign::Less,
        [b'>', b'=', ..] => Sign::GreaterEqual,
        [b'>', ..] => Sign::Greater,
        [b'=', ..] => Sign::Equal,
        [b'+', ..] => Sign::Plus,
        [b'-', ..] => Sign::Minus,
        [b'*', ..] => Sign::Star,
        [b'/', ..] => Sign::Slash,
        [b'%', ..] => Sign::Percent,
        [b'(', ..] => Sign::LeftParen,
        [b')', ..] => Sign::RightParen,
        [b'[', ..] => Sign::LeftBracket,
        [b']', ..] => Sign::RightBracket,
        [b',', ..] => Sign::Comma,
        [b':', ..] => Sign::Colon,
        [b'.', ..] => Sign::Dot,
        _ => return None,
    };
    Some(sign)
}
