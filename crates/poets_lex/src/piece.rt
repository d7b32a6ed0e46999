//! The piece that begins a text: a blank, a comment or a token.
ghost use Rattle.std.specs.Prelude.{◌≡◌, ◌+◌, ◌<◌, ◌^◌, ◌≤◌, length, IfOk, IfErr};
ghost use Rattle.poets_lex.specs.Table.{Extends};
ghost use Rattle.poets_lex.specs.Lexes.{IsFaultAt, UnlessMemory};
ghost use Rattle.poets_lex.specs.code.Front.{TakesPiece};

use crate::front::{is_blank, line_length};
use crate::lexeme::first_token;
use crate::{LexFault, Names, Token};
use poets_value::List;

// Takes the piece that begins the text, which begins at the place. Its token, if it is one, goes after the others.
// Gives the number of its bytes.
pub(crate) fn take_piece(
    text: &[u8],
    place: u32,
    names: &mut Names,
    tokens: &mut List<Token>,
) -> Result<usize, LexFault>
    requires some { 0 < length text.now }
    requires places { place + length text.now < 2 ^ 32 }
    requires room { length names.old + length text.now < 2 ^ 32 }
    ensures ok { IfOk result
        (λ size. TakesPiece names.old place text.now tokens.old.items size tokens.new.items names.new) }
    ensures fault { IfErr result (UnlessMemory (IsFaultAt place text.now)) }
    ensures some { IfOk result (λ size. 0 < size) }
    ensures names { Extends names.old names.new }
    ensures few { length names.new ≤ length names.old + length text.now }
{
    let first = text[0];
    if is_blank(first) {
        return Ok(1);
    }
    if first == b'#' {
        return Ok(line_length(text));
    }
    let Token { what, from, to } = first_token(text, place, names)?;
    let Ok(()) = tokens.push(Token { what, from, to }) else {
        return Err(LexFault::Memory);
    };
    Ok((to - from) as usize)
}
