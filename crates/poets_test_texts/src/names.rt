//! The table of a text's names.
ghost use Rattle.std.specs.Prelude.{ℕ, ◌<◌, ◌^◌, length};

use poets_lex::{Names, tokens};
use poets_value::Memory;
use std::alloc::Global;

/// The table of the names in the text, which has no fault.
pub(crate) fn names_of(alloc: Global, text: &[u8]) -> Result<Names, Memory>
    requires { length text.now < 2 ^ 32 }
{
    let mut names = Names::new(alloc);
    match tokens(alloc, text, &mut names) {
        Ok(_) => Ok(names),
        Err(_) => Err(Memory),
    }
}
