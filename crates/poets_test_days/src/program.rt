//! The program with a disk in memory, as the tests ask it.

use poets_clerks::NoGate;
use poets_disk::{Disk, MemoryDisk};
use poets_io::{TextSink, TextSource};
use poets_kept::run_kept;
use poets_value::{LONGEST_TEXT, List, Memory};
use std::alloc::Global;
use std::process::Abort;
use std::sync::Wait;
use std::test::Fail;
use std::thread::Threads;

/// The bytes of the journal's file, and which call fails, from 1: of the writes and syncs of the disk, counted
/// together, of the reads of the source, and of the writes of the sink. None fails where it is 0.
#[derive(Clone, Copy)]
pub(crate) struct Edges<'a> {
    pub file: &'a [u8],
    pub disk: u64,
    pub read: u64,
    pub write: u64,
}

// An empty file, and no call that fails.
const EMPTY: Edges = Edges {
    file: &[],
    disk: 0,
    read: 0,
    write: 0,
};

/// A disk with this file, and no call that fails.
pub(crate) fn holding(file: &[u8]) -> Edges {
    Edges { file, ..EMPTY }
}

/// The status, how many entries the history has, how many calls are stored, and what is written.
pub(crate) type End<'a> = (u8, usize, u64, &'a str);

// A list of these items.
fn list<T: Copy + Drop>(alloc: Global, items: &[T]) -> Result<List<T>, Memory> {
    let mut all = List::new(alloc);
    for item in items {
        all.push(*item).map_err(|_| Memory)?;
    }
    Ok(all)
}

fn all_words(alloc: Global, words: &[&str]) -> Result<Vec<String>, Fail> {
    let mut all = Vec::new(alloc);
    for word in words {
        all.push(String::from_str(alloc, word)?)?;
    }
    Ok(all)
}

/// The text that the pieces are.
pub(crate) fn joined(alloc: Global, pieces: &[&str]) -> Result<String, Fail> {
    let mut text = String::new(alloc);
    for piece in pieces {
        text.push_str(piece)?;
    }
    Ok(text)
}

/// The file of a journal that holds these texts, each shorter than 256 bytes.
pub(crate) fn file_of(alloc: Global, texts: &[&str]) -> Result<Vec<u8>, Fail> {
    let mut file = Vec::new(alloc);
    for text in texts {
        let size = u8::try_from(text.len())?;
        file.extend_from_slice(&[1, 0, 0, 0, size])?;
        file.extend_from_slice(text.as_bytes())?;
    }
    file.push(0)?;
    Ok(file)
}

// A disk with this file that fails at the call with the number.
fn disk(alloc: Global, file: &[u8], call: u64) -> Result<MemoryDisk, Memory> {
    let fails = list(alloc, &[call])?;
    let bytes = list(alloc, file)?;
    if bytes.len() > LONGEST_TEXT {
        return Err(Memory);
    }
    MemoryDisk::new(alloc, bytes, fails)
}

/// What the program answered, and what it left.
#[derive(Drop)]
pub(crate) struct Answer {
    status: u8,
    entries: usize,
    stored: u64,
    sink: TextSink,
    disk: MemoryDisk,
}

impl Answer {
    /// Whether it ended so.
    pub(crate) fn is(&self, (status, entries, stored, lines): End) -> bool {
        self.status == status
            && self.entries == entries
            && self.stored == stored
            && self.sink.bytes() == lines.as_bytes()
    }

    /// Whether it ended with the status, so many entries and so many stored calls, whatever it wrote.
    pub(crate) fn has_ended(&self, status: u8, entries: usize, stored: u64) -> bool {
        self.status == status && self.entries == entries && self.stored == stored
    }

    /// What it wrote.
    pub(crate) fn written(&self) -> &[u8] {
        self.sink.bytes()
    }

    /// One of the images of the disk, by its number.
    pub(crate) fn left(&self, alloc: Global, pick: u64) -> Result<List<u8>, Memory> {
        self.disk.left(alloc, pick)
    }

    /// Whether the disk, of which the first write or sync fails, was not written or synced: it still fails then, once.
    pub(crate) fn is_untouched(&mut self) -> bool {
        self.disk.sync().is_err() && self.disk.sync().is_ok()
    }
}

/// What the program, called with the words, answers to the text.
pub(crate) fn ask<R: Threads + Wait + Sync>(
    rt: &R,
    alloc: Global,
    words: &[&str],
    text: &str,
    edges: &Edges,
) -> Result<Answer, Fail> {
    let words = all_words(alloc, words)?;
    let bytes = list(alloc, text.as_bytes())?;
    let disk = disk(alloc, edges.file, edges.disk)?;
    let mut source = TextSource::new(alloc, bytes, 65_536, list(alloc, &[edges.read])?);
    let mut sink = TextSink::new(alloc, list(alloc, &[edges.write])?)?;
    let outcome = run_kept(
        rt,
        alloc,
        words.as_slice(),
        &mut source,
        &mut sink,
        &NoGate,
        disk,
    );
    Ok(Answer {
        status: outcome.status,
        entries: outcome.history.len(),
        stored: outcome.stored,
        sink,
        disk: outcome.disk,
    })
}

// Whether the program, called with the word, ends so over a journal with this file, and what it leaves of the file.
fn ended<R: Threads + Wait + Sync>(
    rt: &R,
    alloc: Global,
    (word, text): (&str, &str),
    file: &[u8],
    wanted: End,
) -> Result<(bool, List<u8>), Fail> {
    let answer = ask(rt, alloc, &[word], text, &holding(file))?;
    let left = answer.left(alloc, 0)?;
    Ok((answer.is(wanted), left))
}

/// The program, called with the word, ends so over a journal with this file. What it leaves of the file.
pub(crate) fn leaves<R: Abort + Threads + Wait + Sync>(
    rt: &R,
    alloc: Global,
    (word, text): (&str, &str),
    file: &[u8],
    wanted: End,
) -> Result<List<u8>, Fail> {
    let (holds, left) = ended(rt, alloc, (word, text), file, wanted)?;
    assert!(rt; holds, "{word} over {file:?}");
    Ok(left)
}

/// The same, and the file stays as it is.
pub(crate) fn stays<R: Abort + Threads + Wait + Sync>(
    rt: &R,
    alloc: Global,
    asked: (&str, &str),
    file: &[u8],
    wanted: End,
) -> Result<(), Fail> {
    let left = leaves(rt, alloc, asked, file, wanted)?;
    assert_eq!(rt; left.as_slice(), file);
    Ok(())
}
