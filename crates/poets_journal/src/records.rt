//! Records of texts as bytes.
ghost use Rattle.std.specs.Prelude.{◌≡◌, ◌<◌, ◌^◌, ◌∷◌, ℕ, length, IfOk, IfSome, IfNone};
ghost use Rattle.poets_journal.specs.Texts.{BeginsWith, IsFrame, Text, number_of};
ghost use Rattle.poets_journal.specs.code.Sizes.{size_bytes};

use poets_io::append;
use poets_value::{List, Memory, push};
use std::alloc::Global;

/// What comes after a text's gate: its length, the text, and a closed gate.
pub fn frame(alloc: Global, text: &[u8]) -> Result<List<u8>, Memory>
    requires { length text.now < 2 ^ 32 }
    ensures { IfOk result (λ made. IsFrame text.now made.items) }
{
    let mut made = List::new(alloc);
    append(&mut made, &size_bytes(text.len() as u32))?;
    append(&mut made, text)?;
    push(&mut made, 0)?;
    Ok(made)
}

// The four bytes of a length, the greatest first.
fn size_bytes(size: u32) -> [u8; 4]
    ensures { result ≡ size_bytes size }
{
    [
        (size / 16_777_216) as u8,
        (size / 65_536 % 256) as u8,
        (size / 256 % 256) as u8,
        (size % 256) as u8,
    ]
}

// The text of a record whose open gate stands ahead of the bytes, and what is behind it, where the record is whole and
// something is behind it.
pub(crate) fn record(bytes: &[u8]) -> Option<(&[u8], &[u8])>
    ensures some { IfSome result
        (λ found. BeginsWith found.0.now (1 ∷ bytes.now) found.1.now × (0 < length found.1.now)) }
    ensures none { IfNone result ((text more : Text) (next : ℕ)
        → ¬ (BeginsWith text (1 ∷ bytes.now) (next ∷ more))) }
{
    let [a, b, c, d, rest @ ..] = bytes else {
        return None;
    };
    let size = number(*a, *b, *c, *d) as usize;
    if rest.len() <= size {
        return None;
    }
    Some((&rest[..size], &rest[size..]))
}

// The number that four bytes are, the greatest first.
fn number(a: u8, b: u8, c: u8, d: u8) -> u32
    ensures { result ≡ number_of a b c d }
{
    ((a as u32 * 256 + b as u32) * 256 + c as u32) * 256 + d as u32
}
