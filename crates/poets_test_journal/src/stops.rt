//! Texts are put into a journal whose disk fails at each of its calls in turn.

use crate::making::{add, bytes, disk};
use poets_disk::MemoryDisk;
use poets_journal::{Journal, StartFault};
use poets_value::{List, Memory};
use std::alloc::Global;
use std::test::Fail;

// The texts of a small history.
const TEXTS: [&str; 4] = [
    "1: register a = Success",
    "1: show a",
    "1: end a",
    "1: end a",
];

// What came of a run: the disk, and how many texts were acknowledged.
#[derive(Drop)]
struct Stopped {
    disk: MemoryDisk,
    stored: usize,
}

// Puts the texts into an empty journal whose disk fails at the calls named, until one fails.
fn put_all(alloc: Global, fails: &[u64]) -> Result<Stopped, Memory> {
    let mut journal = match Journal::start(alloc, disk(alloc, List::new(alloc), fails)?) {
        Ok(started) => started.journal,
        Err(StartFault::Disk { disk }) => return Ok(Stopped { disk, stored: 0 }),
        Err(_) => return Err(Memory),
    };
    let mut stored = 0;
    for (place, text) in TEXTS.iter().enumerate() {
        if !add(alloc, &mut journal, text)? {
            break;
        }
        stored = place + 1;
    }
    Ok(Stopped {
        disk: journal.end(),
        stored,
    })
}

// The texts that a journal holds on a disk with these bytes.
fn held(alloc: Global, image: List<u8>) -> Result<List<List<u8>>, Memory> {
    match Journal::start(alloc, disk(alloc, image, &[])?) {
        Ok(started) => Ok(started.texts),
        Err(_) => Err(Memory),
    }
}

// The texts are the first ones.
fn are_first(texts: &[List<u8>]) -> bool {
    for (text, wanted) in texts.iter().zip(TEXTS) {
        if text.as_slice() != wanted.as_bytes() {
            return false;
        }
    }
    texts.len() <= TEXTS.len()
}

// How many texts a journal holds on a disk with these bytes, if they are the first ones.
fn first_texts(alloc: Global, image: List<u8>) -> Result<Option<usize>, Memory> {
    let texts = held(alloc, image)?;
    Ok(are_first(texts.as_slice()).then_some(texts.len()))
}

// Whether the bytes begin with a record whose text has 23 bytes.
fn begins(image: &[u8]) -> bool {
    image.starts_with(&[1, 0, 0, 0, 0x17])
}

#[test]
fn texts_are_kept_and_read_again(rt: HostRuntime) -> Result<(), Fail> {
    let run = put_all(rt.alloc(), &[])?;
    let begins = begins(run.disk.left(rt.alloc(), 0)?.as_slice());
    let texts = first_texts(rt.alloc(), run.disk.left(rt.alloc(), 0)?)?;
    let stored = run.stored;
    drop(run);
    assert_eq!(rt; (stored, begins, texts), (4, true, Some(4)));
    Ok(())
}

// How many texts are acknowledged where this call fails, and how many the image that is picked holds, if they are the
// first ones.
fn kept(alloc: Global, call: u64, pick: u64) -> Result<(usize, Option<usize>), Memory> {
    let run = put_all(alloc, &[call])?;
    let image = run.disk.left(alloc, pick)?;
    Ok((run.stored, first_texts(alloc, image)?))
}

// Two calls start an empty journal after the first sync, and four put a text. Each image has the acknowledged texts, and
// at most one more.
#[test]
fn a_crash_at_each_call_leaves_the_acknowledged_texts(rt: HostRuntime) -> Result<(), Fail> {
    for call in 1..20 {
        for pick in [0, 1, 257] {
            let (stored, texts) = kept(rt.alloc(), call, pick)?;
            assert_eq!(rt; stored as u64, call.saturating_sub(4) / 4);
            assert!(rt; texts == Some(stored) || texts == Some(stored + 1));
        }
    }
    Ok(())
}

// The second gate byte is not written, or it is and is not synced: the call that fails, the image that is picked, how
// many texts are acknowledged, and how many the image holds.
const GATES: [(u64, u64, usize, usize); 5] = [
    (10, 0, 1, 1),
    (10, 257, 1, 1),
    (11, 0, 1, 2),
    (11, 1, 1, 1),
    (11, 257, 1, 2),
];

#[test]
fn the_second_gate_fails(rt: HostRuntime) -> Result<(), Fail> {
    for (call, pick, stored, texts) in GATES {
        assert_eq!(rt; kept(rt.alloc(), call, pick)?, (stored, Some(texts)));
    }
    Ok(())
}

// How many texts the image that is picked holds where this call of the start fails, of a file that is one byte.
fn kept_at_start(alloc: Global, call: u64, pick: u64) -> Result<Option<usize>, Memory> {
    match Journal::start(alloc, disk(alloc, bytes(alloc, &[1])?, &[call])?) {
        Err(StartFault::Disk { disk }) => first_texts(alloc, disk.left(alloc, pick)?),
        _ => Ok(None),
    }
}

// A start that fails leaves at most one byte, and the next one takes it for an empty journal.
#[test]
fn a_start_is_stopped(rt: HostRuntime) -> Result<(), Fail> {
    for call in 1..4 {
        for pick in [0, 1, 257] {
            assert_eq!(rt; kept_at_start(rt.alloc(), call, pick)?, Some(0));
        }
    }
    Ok(())
}
