//! The lines that say why a journal is refused.
ghost use Rattle.std.specs.Prelude.{◌≡◌, IfOk, string_bytes};
ghost use Rattle.poets_keeping.specs.Journals as lines;

use poets_value::Memory;
use std::alloc::Global;

/// The line of a journal that holds so many calls.
pub fn holds_line(alloc: Global, calls: usize) -> Result<String, Memory>
    ensures { IfOk result (λ line. string_bytes line ≡ lines.holds_line calls) }
{
    Ok(format!(in alloc; "refused: journal holds {calls} calls\n")?)
}

/// The line of a journal whose record with the number is damaged.
pub fn damaged_line(alloc: Global, number: u64) -> Result<String, Memory>
    ensures { IfOk result (λ line. string_bytes line ≡ lines.damaged_line number) }
{
    Ok(format!(in alloc; "refused: journal damaged at record {number}\n")?)
}
