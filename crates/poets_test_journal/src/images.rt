//! Images of a disk in memory, and its faults.

use crate::making::{bytes, disk, leaves, write};
use poets_disk::{Disk, MemoryDisk};
use poets_value::{List, Memory};
use std::alloc::Global;
use std::test::Fail;

// What was not synced reads as written, is gone in the image of the last sync, and is any byte in another.
fn unsynced(alloc: Global, disk: &mut MemoryDisk) -> Result<[bool; 9], Memory> {
    Ok([
        write(disk, 1, &[5]),
        disk.sync().is_ok(),
        write(disk, 2, &[4, 4, 4]),
        leaves(alloc, disk, 0, &[9, 5, 4, 4, 4])?,
        leaves(alloc, disk, 1, &[9, 5, 7])?,
        leaves(alloc, disk, 257, &[9, 5, 1, 1, 1])?,
        disk.sync().is_ok(),
        leaves(alloc, disk, 1, &[9, 5, 4, 4, 4])?,
        leaves(alloc, disk, 257, &[9, 5, 4, 4, 4])?,
    ])
}

#[test]
fn unsynced_bytes_may_be_any(rt: HostRuntime) -> Result<(), Fail> {
    let alloc = rt.alloc();
    let mut disk = disk(alloc, bytes(alloc, &[9, 8, 7])?, &[])?;
    assert_eq!(rt; unsynced(alloc, &mut disk)?, [true; 9]);
    Ok(())
}

// Without a sync the image of the last one is the file at the making.
fn never_synced(alloc: Global, disk: &mut MemoryDisk) -> Result<[bool; 3], Memory> {
    Ok([
        write(disk, 0, &[1, 2]),
        leaves(alloc, disk, 1, &[3])?,
        leaves(alloc, disk, 2, &[2, 2])?,
    ])
}

#[test]
fn nothing_was_synced(rt: HostRuntime) -> Result<(), Fail> {
    let alloc = rt.alloc();
    let mut disk = disk(alloc, bytes(alloc, &[3])?, &[])?;
    assert_eq!(rt; never_synced(alloc, &mut disk)?, [true; 3]);
    Ok(())
}

// Which calls go well where the second and the fourth fail.
fn by_plan(disk: &mut MemoryDisk) -> [bool; 5] {
    [
        write(disk, 0, &[6, 6]),
        disk.sync().is_ok(),
        disk.sync().is_ok(),
        write(disk, 1, &[5, 5]),
        write(disk, 1, &[7]),
    ]
}

// Whether the disk has these two bytes and no more.
fn reads(disk: &mut MemoryDisk, wanted: [u8; 2]) -> bool {
    let mut buf = [0; 3];
    let read = disk.read(0, &mut buf) == Ok(2) && buf == [wanted[0], wanted[1], 0];
    read && disk.length() == Ok(2) && disk.read(2, &mut buf) == Ok(0)
}

// The calls of `write` and `sync` are counted together, and those that fail change nothing that a read gives.
#[test]
fn calls_fail_by_plan(rt: HostRuntime) -> Result<(), Fail> {
    let alloc = rt.alloc();
    let mut disk = disk(alloc, List::new(alloc), &[2, 4])?;
    let went = by_plan(&mut disk);
    let read = reads(&mut disk, [6, 7]);
    drop(disk);
    assert_eq!(rt; went, [true, false, true, false, true]);
    assert!(rt; read);
    Ok(())
}

// Which calls go well where the first one writes these bytes.
fn past_the_room(disk: &mut MemoryDisk, full: &[u8]) -> [bool; 4] {
    [
        write(disk, 0, full),
        write(disk, 16_777_216, &[1]),
        write(disk, 0, &[1]),
        disk.sync().is_ok(),
    ]
}

// A file has at most 16,777,216 bytes, and no more are written in all.
#[test]
fn a_write_past_the_room_fails(rt: HostRuntime) -> Result<(), Fail> {
    let alloc = rt.alloc();
    let full = vec![in alloc; 1u8; 16_777_216]?;
    let mut disk = disk(alloc, List::new(alloc), &[])?;
    let went = past_the_room(&mut disk, &full);
    drop(disk);
    drop(full);
    assert_eq!(rt; went, [true, false, false, true]);
    Ok(())
}
