//! Disks and records for the tests.

use poets_disk::{Disk, MemoryDisk};
use poets_journal::{Journal, frame};
use poets_value::{LONGEST_TEXT, List, Memory, push};
use std::alloc::Global;

// The bytes as a list.
pub(crate) fn bytes(alloc: Global, from: &[u8]) -> Result<List<u8>, Memory> {
    let mut list = List::new(alloc);
    for byte in from {
        push(&mut list, *byte)?;
    }
    Ok(list)
}

// A disk with this file that fails at the calls named.
pub(crate) fn disk(alloc: Global, file: List<u8>, fails: &[u64]) -> Result<MemoryDisk, Memory> {
    if file.len() > LONGEST_TEXT {
        return Err(Memory);
    }
    let mut named = List::new(alloc);
    for number in fails {
        push(&mut named, *number)?;
    }
    MemoryDisk::new(alloc, file, named)
}

// Whether the disk leaves these bytes, where an image is picked so.
pub(crate) fn leaves(
    alloc: Global,
    disk: &MemoryDisk,
    pick: u64,
    wanted: &[u8],
) -> Result<bool, Memory> {
    Ok(disk.left(alloc, pick)?.as_slice() == wanted)
}

// Writes the piece at a place in the file, and says whether that went well.
pub(crate) fn write(disk: &mut MemoryDisk, at: u64, piece: &[u8]) -> bool {
    match disk.length() {
        Ok(length) if at <= length => disk.write(at, piece).is_ok(),
        _ => false,
    }
}

// Appends a text, and says whether that went well.
pub(crate) fn add<D: Disk>(
    alloc: Global,
    journal: &mut Journal<D>,
    text: &str,
) -> Result<bool, Memory> {
    if text.len() > LONGEST_TEXT {
        return Err(Memory);
    }
    if journal.failed() {
        return Ok(false);
    }
    let record = frame(alloc, text.as_bytes())?;
    Ok(journal.append(&record).is_ok())
}
