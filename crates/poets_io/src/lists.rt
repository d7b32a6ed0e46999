//! Lists of bytes.
ghost use Rattle.std.specs.Prelude.{◌≡◌, ◌++◌, IfOk, OnOk};

use poets_value::{List, Memory};
use std::alloc::Global;

/// A copy of the bytes.
///
/// # Errors
///
/// Out of memory.
pub fn copied(alloc: Global, bytes: &[u8]) -> Result<List<u8>, Memory>
    ensures { IfOk result (λ made. made.items ≡ bytes.now) }
{
    let mut made = List::new(alloc);
    append(&mut made, bytes)?;
    Ok(made)
}

/// Adds a copy of the bytes at the end.
///
/// # Errors
///
/// Out of memory. No clause says how many of the bytes the list then has.
pub fn append(list: &mut List<u8>, bytes: &[u8]) -> Result<(), Memory>
    ensures { OnOk result (list.new.items ≡ list.old.items ++ bytes.now) }
{
    list.reserve(bytes.len())?;
    for byte in bytes {
        list.push(*byte).map_err(|_| Memory)?;
    }
    Ok(())
}
