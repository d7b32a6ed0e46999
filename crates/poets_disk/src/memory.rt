//! A disk in memory that fails by plan.
ghost use Rattle.std.specs.Prelude.{◌≡◌, ◌≤◌, ◌<◌, ◌+◌, ◌↔◌, ◌⊎◌, ◌++◌, [], ◌∷◌, ◌%◌, length, Some, IfOk, OnOk, OnErr, IsOk, IsErr, IsTrue, Contains, vec_len, vec_capacity};
ghost use Rattle.std.specs.Io.{ReadsAtMost};
ghost use Rattle.poets_value.specs.Limits.{longest_text};
ghost use Rattle.poets_io.specs.Causes.{HasCause};
ghost use Rattle.poets_disk.specs.Disks.{over};
ghost use Rattle.poets_disk.specs.declared.memory.TheConstants.{MOST_CALLS};

use crate::Disk;
use crate::left::{filled_image, synced_image, with_room};
use poets_io::{Failed, copied};
use poets_value::{LONGEST_TEXT, List, Memory};
use std::alloc::Global;
use std::marker::Model;

/// The most calls of `write` and `sync` that a disk in memory keeps.
const MOST_CALLS: usize = 300_000;

// A call of `write` or `sync`, without the bytes.
#[derive(Clone, Copy)]
pub(crate) enum Mark {
    Wrote(usize, usize),
    FailedWrite(usize, usize),
    Synced,
    FailedSync,
}

/// A disk in memory that keeps its calls, so that it can tell what a crash may have left. It fails at the calls with
/// the given numbers, and at a call that would go past its room: a file of 16,777,216 bytes, and 16,777,216 written
/// bytes in 300,000 calls.
#[derive(Drop)]
pub struct MemoryDisk {
    first: List<u8>,
    held: Vec<u8>,
    written: Vec<u8>,
    marks: Vec<Mark>,
    fails: List<u64>,
    faults: u64,
}

impl Model for MemoryDisk {
    ghost use Rattle.poets_disk.specs.Memory.{MemoryFile};

    ghost Value = { MemoryFile };

    ghost use Rattle.poets_disk.specs.Kept.{file_of};
    ghost use Rattle.poets_disk.specs.code.Marks.{HasRoom};

    ghost view = { file_of };

    ghost invariant = { HasRoom };
}

impl MemoryDisk {
    ghost use Rattle.poets_disk.specs.Disks.{MayLeave};
    ghost use Rattle.poets_disk.specs.Memory.{NextFails, WriteFails, WasSynced, IsFilled};
    ghost use Rattle.poets_disk.specs.Memory.{seen_of, held_now, after_call, after_failed};
    ghost use Rattle.poets_disk.specs.Memory.{wrote, failed_write, synced, failed_sync};

    /// A disk whose file has these bytes. The calls of `write` and `sync` that fail are counted together, from 1. It
    /// makes room for all that it will keep.
    pub fn new(alloc: Global, bytes: List<u8>, fails: List<u64>) -> Result<MemoryDisk, Memory>
        requires { length bytes.items ≤ longest_text }
        ensures first { IfOk result (λ made. made.first ≡ bytes.items) }
        ensures calls { IfOk result (λ made. made.calls ≡ []) }
        ensures fails { IfOk result (λ made. made.fails ≡ fails.items) }
        ensures faults { IfOk result (λ made. made.faults ≡ 0) }
    {
        let held = with_room(alloc, bytes.as_slice())?;
        Ok(MemoryDisk {
            first: bytes,
            held,
            written: Vec::with_capacity(alloc, LONGEST_TEXT)?,
            marks: Vec::with_capacity(alloc, MOST_CALLS)?,
            fails,
            faults: 0,
        })
    }

    /// One of the images, by its number: 0 is what a read gives, 1 what was synced last. Any other has the number
    /// modulo 256 for each byte that was written since.
    pub fn left(&self, alloc: Global, pick: u64) -> Result<List<u8>, Memory>
        ensures held { pick ≡ 0 → IfOk result (λ image. image.items ≡ held_now self.now) }
        ensures sure { pick ≡ 1 → IfOk result (λ image. WasSynced self.now.first self.now.calls image.items) }
        ensures filled { 1 < pick
            → IfOk result (λ image. IsFilled (pick % 256) self.now.first self.now.calls image.items) }
        ensures image { IfOk result (λ image. MayLeave (seen_of self.now) image.items) }
    {
        let first = self.first.as_slice();
        let marks = self.marks.as_slice();
        let written = self.written.as_slice();
        if pick == 0 {
            return copied(alloc, self.held.as_slice());
        }
        if pick == 1 {
            return synced_image(alloc, first, marks, written);
        }
        filled_image(alloc, (pick % 256) as u8, first, marks, written)
    }

    // The next call fails.
    fn refuses_call(&self) -> bool
        ensures { IsTrue result ↔ NextFails self.now }
    {
        let named = self.fails.as_slice();
        let marks = self.marks.as_slice();
        is_named(named, marks.len())
    }

    // A write of so many bytes from that place on fails.
    fn refuses_write(&self, at: usize, count: usize) -> bool
        ensures { IsTrue result ↔ WriteFails self.now at count }
    {
        let refuses = self.refuses_call();
        let written = self.written.as_slice();
        is_refused(refuses, at, count, written.len())
    }

    // Counts a fault, and keeps the write that failed.
    fn refuse_write(&mut self, at: usize, count: usize)
        ensures state { self.new ≡ after_failed (failed_write at count) self.old }
        ensures later { self.old.faults ≤ self.new.faults }
    {
        self.faults = self.faults.saturating_add(1);
        note(&mut self.marks, Mark::FailedWrite(at, count));
    }

    // Counts a fault, and keeps the sync that failed.
    fn refuse_sync(&mut self)
        ensures state { self.new ≡ after_failed failed_sync self.old }
        ensures later { self.old.faults ≤ self.new.faults }
    {
        self.faults = self.faults.saturating_add(1);
        note(&mut self.marks, Mark::FailedSync);
    }

    // Writes the piece from that place on, and keeps the write.
    fn apply_write(&mut self, at: usize, piece: &[u8])
        requires inside { at ≤ length (held_now self.old) }
        requires accepted { ¬ (WriteFails self.old at (length piece.now)) }
        ensures { self.new ≡ after_call (wrote at piece.now) self.old }
    {
        overwrite(&mut self.held, at, piece);
        extend(&mut self.written, piece);
        note(&mut self.marks, Mark::Wrote(at, piece.len()));
    }

    // Keeps the sync.
    fn apply_sync(&mut self)
        requires { ¬ (NextFails self.old) }
        ensures { self.new ≡ after_call synced self.old }
    {
        note(&mut self.marks, Mark::Synced);
    }
}

impl Disk for MemoryDisk {
    ghost use Rattle.poets_disk.specs.Disks.{Rests, Writes, IsSure, Gives, longest_file};
    ghost use Rattle.poets_disk.specs.Memory.{seen_of, held_now, NextFails, WriteFails, after_call, after_failed};
    ghost use Rattle.poets_disk.specs.Memory.{wrote, failed_write, synced, failed_sync};
    ghost use Rattle.poets_disk.specs.MemoryLaws.{held_is_left, some_is_not_none};

    ghost seen = { seen_of };

    ghost faults = { λ m. m.faults };

    ghost reads_image = { held_is_left };

    ghost silent = { λ m start image is since. some_is_not_none _ is };

    fn length(&mut self) -> Result<u64, Failed>
        ensures sure { IsOk result }
        ensures unchanged { self.new ≡ self.old }
        ensures length { IfOk result (λ n. n ≡ length (held_now self.old)) }
        ensures bound { IfOk result (λ n. n ≤ longest_file) }
        ensures rests { Rests (seen_of self.old) (seen_of self.new) }
        ensures cause { HasCause self.old.faults self.new.faults result }
    {
        Ok(self.held.len() as u64)
    }

    fn read(&mut self, at: u64, buf: &mut [u8]) -> Result<usize, Failed>
        ensures sure { IsOk result }
        ensures unchanged { self.new ≡ self.old }
        ensures bound { ReadsAtMost result buf.new }
        ensures bytes { IfOk result (λ n. Gives at n buf.new (held_now self.old)) }
        ensures rests { Rests (seen_of self.old) (seen_of self.new) }
        ensures cause { HasCause self.old.faults self.new.faults result }
    {
        if at >= self.held.len() as u64 {
            return Ok(0);
        }
        let left = &self.held[at as usize..];
        let count = buf.len().min(left.len());
        buf[..count].copy_from_slice(&left[..count]);
        Ok(count)
    }

    fn write(&mut self, at: u64, piece: &[u8]) -> Result<(), Failed>
        requires { at ≤ length (held_now self.old) }
        ensures fails { IsErr result ↔ WriteFails self.old at (length piece.now) }
        ensures ok { OnOk result (self.new ≡ after_call (wrote at piece.now) self.old) }
        ensures err { OnErr result (self.new ≡ after_failed (failed_write at (length piece.now)) self.old) }
        ensures kept { OnErr result (held_now self.new ≡ held_now self.old) }
        ensures written { OnOk result (Some (held_now self.new) ≡ Some (over at piece.now (held_now self.old))) }
        ensures fits { OnOk result (at + length piece.now ≤ longest_file) }
        ensures writes { Writes at piece.now (seen_of self.old) (seen_of self.new) }
        ensures cause { HasCause self.old.faults self.new.faults result }
    {
        let place = at as usize;
        if self.refuses_write(place, piece.len()) {
            self.refuse_write(place, piece.len());
            return Err(Failed);
        }
        self.apply_write(place, piece);
        Ok(())
    }

    fn sync(&mut self) -> Result<(), Failed>
        ensures fails { IsErr result ↔ NextFails self.old }
        ensures ok { OnOk result (self.new ≡ after_call synced self.old) }
        ensures err { OnErr result (self.new ≡ after_failed failed_sync self.old) }
        ensures sure { OnOk result (IsSure (seen_of self.new)) }
        ensures rests { Rests (seen_of self.old) (seen_of self.new) }
        ensures cause { HasCause self.old.faults self.new.faults result }
    {
        if self.refuses_call() {
            self.refuse_sync();
            return Err(Failed);
        }
        self.apply_sync();
        Ok(())
    }
}

// The call after so many is one of those named, or there is no room for it.
fn is_named(named: &[u64], calls: usize) -> bool
    ensures { IsTrue result ↔ (Contains named.now (calls + 1) ⊎ (MOST_CALLS ≤ calls)) }
{
    calls >= MOST_CALLS || named.contains(&(calls as u64 + 1))
}

// A write of so many bytes is refused: the call is, or the file or all that was written would be too long.
fn is_refused(refuses: bool, at: usize, count: usize, written: usize) -> bool
    ensures { IsTrue result ↔ (IsTrue refuses ⊎ ((longest_text < at + count) ⊎ (longest_text < written + count))) }
{
    refuses || passes(at, count) || passes(written, count)
}

// So many bytes from a place on pass the longest file.
fn passes(at: usize, count: usize) -> bool
    ensures { IsTrue result ↔ (longest_text < at + count) }
{
    count > LONGEST_TEXT || at > LONGEST_TEXT - count
}

// Keeps a call where there is room for one more.
fn note(marks: &mut Vec<Mark>, mark: Mark)
    requires room { MOST_CALLS ≤ vec_capacity marks.old }
    requires few { vec_len marks.old ≤ MOST_CALLS }
    ensures few { vec_len marks.new ≤ MOST_CALLS }
    ensures noted { vec_len marks.old < MOST_CALLS → marks.new.items ≡ marks.old.items ++ mark ∷ [] }
    ensures full { MOST_CALLS ≤ vec_len marks.old → marks.new.items ≡ marks.old.items }
    ensures was { vec_len marks.old ≡ length marks.old.items }
    ensures room { vec_capacity marks.old ≤ vec_capacity marks.new }
{
    if marks.len() < MOST_CALLS {
        let _ = marks.push(mark);
    }
}

// Adds a copy of the piece at the end.
fn extend(written: &mut Vec<u8>, piece: &[u8])
    requires { vec_len written.old + length piece.now ≤ vec_capacity written.old }
    ensures written { written.new.items ≡ written.old.items ++ piece.now }
    ensures len { vec_len written.new ≡ length written.new.items }
    ensures was { vec_len written.old ≡ length written.old.items }
    ensures room { vec_capacity written.old ≤ vec_capacity written.new }
{
    let _ = written.extend_from_slice(piece);
}

// Writes the piece over what stands from a place on, and past the end.
pub(crate) fn overwrite(held: &mut Vec<u8>, at: usize, piece: &[u8])
    requires inside { at ≤ vec_len held.old }
    requires room { at + length piece.now ≤ vec_capacity held.old }
    ensures held { held.new.items ≡ over at piece.now held.old.items }
    ensures len { vec_len held.new ≡ length held.new.items }
    ensures room { vec_capacity held.old ≤ vec_capacity held.new }
{
    let inside = piece.len().min(held.len() - at);
    held[at..at + inside].copy_from_slice(&piece[..inside]);
    let _ = held.extend_from_slice(&piece[inside..]);
}
