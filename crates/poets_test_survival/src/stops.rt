//! Runs whose disk fails at one of its calls.

use crate::program::{Answer, EMPTY, Edges, ask, holding};
use crate::session::{ENDED, HEAD, all_lines, first_lines, kept_file};
use std::alloc::Global;
use std::sync::Wait;
use std::test::Fail;
use std::thread::Threads;

// Whether so many calls, or one more, are recovered from this image of the disk.
fn is_recovered<R: Threads + Wait + Sync>(
    rt: &R,
    alloc: Global,
    kept: &Answer,
    pick: u64,
    stored: usize,
) -> Result<bool, Fail> {
    let whole = all_lines(alloc)?;
    let image = kept.left(alloc, pick)?;
    let again = ask(rt, alloc, &["recover"], HEAD, &holding(image.as_slice()))?;
    Ok(again.has_recovered(stored) && whole.as_bytes().starts_with(again.written()))
}

// Whether whatever is left of the disk has the stored calls, and at most one more.
fn has_calls<R: Threads + Wait + Sync>(
    rt: &R,
    alloc: Global,
    kept: &Answer,
    stored: usize,
) -> Result<bool, Fail> {
    for pick in [0, 1, 257] {
        if !is_recovered(rt, alloc, kept, pick, stored)? {
            return Ok(false);
        }
    }
    Ok(true)
}

// The call of the disk with this number fails. So many of its calls start the journal, and then sixteen keep the four
// calls of the session: a record is written and synced, and then its gate. `keep` writes the lines of the acknowledged
// calls, and whatever is left of the disk has these, and at most one more.
fn is_stopped<R: Threads + Wait + Sync>(
    rt: &R,
    alloc: Global,
    file: &[u8],
    start: u64,
    disk: u64,
) -> Result<bool, Fail> {
    let edges = Edges {
        file,
        disk,
        ..EMPTY
    };
    let stored = disk.saturating_sub(start.saturating_add(1)) / 4;
    let status = if stored < 4 { 7 } else { 0 };
    let entries = if disk > start { 4 } else { 0 };
    let count = stored as usize;
    let lines = first_lines(alloc, count)?;
    let kept = ask(rt, alloc, &["keep"], ENDED, &edges)?;
    let is_told = kept.is((status, entries, stored, lines.as_str()));
    Ok(has_calls(rt, alloc, &kept, count)? && is_told)
}

// An empty file is synced, its gate is written, and it is synced again.
#[test]
fn keep_is_stopped_at_each_call(rt: HostRuntime) -> Result<(), Fail> {
    for call in 1..=20 {
        assert!(rt; is_stopped(&rt, rt.alloc(), &[], 3, call)?, "call {call}");
    }
    Ok(())
}

// What an earlier stop left behind a closed gate is no text, and the file is only synced.
#[test]
fn keep_is_stopped_over_what_is_left(rt: HostRuntime) -> Result<(), Fail> {
    let left = "\0\0\0\0\x171: register a = Success\0";
    for call in 1..=18 {
        let holds = is_stopped(&rt, rt.alloc(), left.as_bytes(), 1, call)?;
        assert!(rt; holds, "call {call}");
    }
    Ok(())
}

// Whether this image of the disk holds so many calls.
fn has_count<R: Threads + Wait + Sync>(
    rt: &R,
    alloc: Global,
    stopped: &Answer,
    pick: u64,
    count: usize,
) -> Result<bool, Fail> {
    let lines = first_lines(alloc, count)?;
    let image = stopped.left(alloc, pick)?;
    let again = ask(rt, alloc, &["recover"], HEAD, &holding(image.as_slice()))?;
    Ok(again.is((0, count, count as u64, lines.as_str())))
}

// Whether `recover`, where a call of the disk fails, writes no line, and whatever is left of the disk holds so many
// calls.
fn is_same_journal<R: Threads + Wait + Sync>(
    rt: &R,
    alloc: Global,
    edges: &Edges,
    count: usize,
) -> Result<bool, Fail> {
    let stopped = ask(rt, alloc, &["recover"], HEAD, edges)?;
    let mut holds = stopped.is((7, 0, 0, ""));
    for pick in [0, 1, 257] {
        holds = has_count(rt, alloc, &stopped, pick, count)? && holds;
    }
    Ok(holds)
}

// A start that fails writes no line. The file that it leaves is that of the same journal.
#[test]
fn recover_is_stopped_at_each_call(rt: HostRuntime) -> Result<(), Fail> {
    let alloc = rt.alloc();
    let kept = kept_file(alloc)?;
    let cases: [(&[u8], u64, usize); 4] = [
        (&[1], 1, 0),
        (&[1], 2, 0),
        (&[1], 3, 0),
        (kept.as_slice(), 1, 4),
    ];
    for (file, disk, count) in cases {
        let edges = Edges {
            file,
            disk,
            ..EMPTY
        };
        assert!(rt; is_same_journal(&rt, alloc, &edges, count)?, "call {disk}");
    }
    Ok(())
}
