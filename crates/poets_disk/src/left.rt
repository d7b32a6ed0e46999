//! What a crash may leave of a disk in memory.
ghost use Rattle.std.specs.Prelude.{◌≡◌, ◌≤◌, [], ◌∷◌, length, drop, IfOk, replicate, vec_capacity};
ghost use Rattle.poets_value.specs.Limits.{longest_text};
ghost use Rattle.poets_disk.specs.Memory.{held_by, WasSynced, IsFilled};
ghost use Rattle.poets_disk.specs.Kept.{disk_calls};
ghost use Rattle.poets_disk.specs.code.Marks.{AreKept, AreSplitAt, marked};

use crate::memory::{Mark, overwrite};
use poets_io::copied;
use poets_value::{LONGEST_TEXT, List, Memory};
use std::alloc::Global;

// What a read gave after the last successful sync, or at the making.
pub(crate) fn synced_image(
    alloc: Global,
    first: &[u8],
    marks: &[Mark],
    written: &[u8],
) -> Result<List<u8>, Memory>
    requires kept { AreKept first.now (disk_calls marks.now written.now) }
    requires enough { marked marks.now ≤ length written.now }
    ensures { IfOk result (λ image. WasSynced first.now (disk_calls marks.now written.now) image.items) }
{
    let (before, _) = marks.split_at(synced(marks));
    let mut file = with_room(alloc, first)?;
    replay(&mut file, before, written);
    let image = copied(alloc, &file)?;
    Ok(image)
}

// What a read gives, with this byte for each that was written since then.
pub(crate) fn filled_image(
    alloc: Global,
    byte: u8,
    first: &[u8],
    marks: &[Mark],
    written: &[u8],
) -> Result<List<u8>, Memory>
    requires kept { AreKept first.now (disk_calls marks.now written.now) }
    requires enough { marked marks.now ≤ length written.now }
    ensures { IfOk result (λ image. IsFilled byte first.now (disk_calls marks.now written.now) image.items) }
{
    let (before, after) = marks.split_at(synced(marks));
    let mut file = with_room(alloc, first)?;
    let rest = replay(&mut file, before, written);
    let bytes = repeated(alloc, byte, rest.len())?;
    replay(&mut file, after, &bytes);
    let image = copied(alloc, &file)?;
    Ok(image)
}

// How many marks there are up to the last successful sync.
fn synced(marks: &[Mark]) -> usize
    ensures { AreSplitAt result marks.now }
{
    let mut count = 0;
    for (place, mark) in marks.iter().enumerate() {
        if let Mark::Synced = mark {
            count = place + 1;
        }
    }
    count
}

// Makes the writes that the marks stand for, with these bytes, and gives the bytes that are left.
fn replay<'a>(file: &mut Vec<u8>, marks: &[Mark], written: &'a [u8]) -> &'a [u8]
    requires kept { AreKept file.old.items (disk_calls marks.now written.now) }
    requires enough { marked marks.now ≤ length written.now }
    requires room { longest_text ≤ vec_capacity file.old }
    ensures file { file.new.items ≡ held_by file.old.items (disk_calls marks.now written.now) }
    ensures room { longest_text ≤ vec_capacity file.new }
    ensures left { result.now ≡ drop (marked marks.now) written.now }
{
    let mut rest = written;
    for mark in marks {
        rest = redo(file, *mark, rest);
    }
    rest
}

// Makes the write that the mark stands for, if it does, with the first bytes, and gives the bytes that are left.
fn redo<'a>(file: &mut Vec<u8>, mark: Mark, written: &'a [u8]) -> &'a [u8]
    requires kept { AreKept file.old.items (disk_calls (mark ∷ []) written.now) }
    requires enough { marked (mark ∷ []) ≤ length written.now }
    requires room { longest_text ≤ vec_capacity file.old }
    ensures file { file.new.items ≡ held_by file.old.items (disk_calls (mark ∷ []) written.now) }
    ensures room { longest_text ≤ vec_capacity file.new }
    ensures left { result.now ≡ drop (marked (mark ∷ [])) written.now }
{
    let Mark::Wrote(at, count) = mark else {
        return written;
    };
    overwrite(file, at, &written[..count]);
    &written[count..]
}

// A copy of the bytes, with room for the longest file.
pub(crate) fn with_room(alloc: Global, bytes: &[u8]) -> Result<Vec<u8>, Memory>
    requires { length bytes.now ≤ longest_text }
    ensures bytes { IfOk result (λ made. made.items ≡ bytes.now) }
    ensures room { IfOk result (λ made. longest_text ≤ vec_capacity made) }
{
    let mut made = Vec::with_capacity(alloc, LONGEST_TEXT)?;
    made.extend_from_slice(bytes)?;
    Ok(made)
}

// So many times the byte.
fn repeated(alloc: Global, byte: u8, count: usize) -> Result<Vec<u8>, Memory>
    ensures { IfOk result (λ made. made.items ≡ replicate count byte) }
{
    Ok(vec![in alloc; byte; count]?)
}
