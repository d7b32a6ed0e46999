//! Texts cut into tokens.
ghost use Rattle.std.specs.Prelude.{◌≡◌, ◌+◌, ◌<◌, ◌^◌, ◌≤◌, length, IfOk, IfErr};
ghost use Rattle.poets_lex.specs.Table.{Extends};
ghost use Rattle.poets_lex.specs.Lexes.{Lexes, FirstFault, UnlessMemory};

use crate::piece::take_piece;
use crate::{LexFault, Names, Token};
use poets_value::List;
use std::alloc::Global;

/// The tokens of the text. Its new names are added to the table, numbered after those that it has.
///
/// After a fault, names that were read before it may have been added to the table.
pub fn tokens(alloc: Global, text: &[u8], names: &mut Names) -> Result<List<Token>, LexFault>
    requires { length text.now + length names.old < 2 ^ 32 }
    ensures ok { IfOk result (λ tokens. Lexes names.old text.now 0 tokens.items names.new) }
    ensures fault { IfErr result (UnlessMemory (FirstFault names.old text.now)) }
    ensures names { Extends names.old names.new }
    ensures few { length names.new ≤ length names.old + length text.now }
{
    let mut tokens = List::new(alloc);
    let mut rest = text;
    let mut place = 0;
    while !rest.is_empty() {
        let size = take_piece(rest, place, names, &mut tokens)?;
        rest = &rest[size..];
        place += size as u32;
    }
    Ok(tokens)
}
