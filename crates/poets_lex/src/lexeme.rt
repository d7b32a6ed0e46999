//! The token that begins a text.
ghost use Rattle.std.specs.Prelude.{◌≡◌, ◌+◌, ◌<◌, ◌^◌, ◌↔◌, length, IfOk, IfErr, OnErr, IfSome, IfNone, IsTrue};
ghost use Rattle.std.specs.Char.{is_ascii_digit};
ghost use Rattle.poets_lex.specs.Texts.{sign_text};
ghost use Rattle.poets_lex.specs.Bytes.{begins_name, Begins};
ghost use Rattle.poets_lex.specs.Lexes.{IsFaultAt, UnlessMemory};
ghost use Rattle.poets_lex.specs.Table.{IsName};
ghost use Rattle.poets_lex.specs.code.Front.{BeginsWith, BeginsWithNoDay, FirstToken, FirstForEachTable, is_in_lexeme};
ghost use Rattle.poets_lex.specs.declared.token.Sign.{Sign};

use crate::front::{begins_name, decimal, digit_count, has_name_shape, name_length};
use crate::sign::sign_of;
use crate::word::word_of;
use crate::{LexFault, Names, Tok, Token};
use poets_value::Day;

// The most bytes that a name may have.
const MOST_OF_NAME: usize = 64;

/// Whether the text is a name, from its first byte to its last.
pub fn is_name(text: &str) -> bool
    ensures { IsTrue result ↔ IsName text.now }
{
    text.len() <= MOST_OF_NAME && has_name_shape(text.as_bytes()) && word_of(text).is_none()
}

// The number that begins the text, which begins at the place.
pub(crate) fn number(text: &[u8], place: u32) -> Result<Token, LexFault>
    requires digit { BeginsWith is_ascii_digit text.now }
    requires places { place + length text.now < 2 ^ 32 }
    ensures ok { IfOk result (FirstForEachTable place text.now) }
    ensures fault { IfErr result (IsFaultAt place text.now) }
{
    let count = digit_count(text);
    match decimal(&text[..count]) {
        Some(number) => Ok(Token {
            what: Tok::Number(number),
            from: place,
            to: place + count as u32,
        }),
        None => Err(LexFault::LongNumber { at: place }),
    }
}

// The reserved word or name that begins the text, which begins at the place.
pub(crate) fn word_or_name(text: &[u8], place: u32, names: &mut Names) -> Result<Token, LexFault>
    requires letter { BeginsWith begins_name text.now }
    requires places { place + length text.now < 2 ^ 32 }
    requires room { length names.old + length text.now < 2 ^ 32 }
    ensures ok { IfOk result (λ token. FirstToken names.old place text.now token names.new) }
    ensures fault { IfErr result (UnlessMemory (IsFaultAt place text.now)) }
    ensures same { OnErr result (names.new ≡ names.old) }
{
    let length = name_length(text);
    if length > MOST_OF_NAME {
        return Err(LexFault::LongName { at: place });
    }
    let Ok(own) = str::from_utf8(&text[..length]) else {
        unreachable!();
    };
    let what = match word_of(own) {
        Some(word) => Tok::Word(word),
        None => Tok::Name(names.enter(own)?),
    };
    Ok(Token {
        what,
        from: place,
        to: place + length as u32,
    })
}

// The day that begins the text, which begins at the place.
pub(crate) fn day(text: &[u8], place: u32) -> Option<Token>
    requires places { place + length text.now < 2 ^ 32 }
    ensures some { IfSome result (FirstForEachTable place text.now) }
    ensures none { IfNone result (BeginsWithNoDay text.now) }
{
    let [b'@', ..] = text else {
        return None;
    };
    let Ok(day) = Day::from_text(text.get(1..11)?) else {
        return None;
    };
    Some(Token {
        what: Tok::Day(day),
        from: place,
        to: place + 11,
    })
}

// The sign that begins the text, which begins at the place.
pub(crate) fn sign(text: &[u8], place: u32) -> Option<Token>
    requires places { place + length text.now < 2 ^ 32 }
    ensures some { IfSome result (FirstForEachTable place text.now) }
    ensures none { IfNone result ((sign : Sign) → ¬ (Begins (sign_text sign) text.now)) }
{
    let sign = sign_of(text)?;
    Some(Token {
        what: Tok::Sign(sign),
        from: place,
        to: place + sign.text().len() as u32,
    })
}

// The token that begins the text, which begins at the place with neither a blank nor a comment.
pub(crate) fn first_token(text: &[u8], place: u32, names: &mut Names) -> Result<Token, LexFault>
    requires some { BeginsWith is_in_lexeme text.now }
    requires places { place + length text.now < 2 ^ 32 }
    requires room { length names.old + length text.now < 2 ^ 32 }
    ensures ok { IfOk result (λ token. FirstToken names.old place text.now token names.new) }
    ensures fault { IfErr result (UnlessMemory (IsFaultAt place text.now)) }
    ensures same { OnErr result (names.new ≡ names.old) }
{
    let first = text[0];
    if first.is_ascii_digit() {
        return number(text, place);
    }
    if begins_name(first) {
        return word_or_name(text, place, names);
    }
    if let Some(token) = day(text, place) {
        return Ok(token);
    }
    match sign(text, place) {
        Some(token) => Ok(token),
        None => Err(LexFault::BadByte { at: place }),
    }
}
