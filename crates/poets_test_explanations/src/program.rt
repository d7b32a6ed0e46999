//! The program, as the tests ask it.

use poets_clerks::NoGate;
use poets_io::{TextSink, TextSource};
use poets_top::run;
use poets_value::{List, Memory};
use std::alloc::Global;
use std::sync::Wait;
use std::test::Fail;
use std::thread::Threads;

/// How the source and the sink behave: the bytes of a read, and the reads and writes that fail.
#[derive(Clone, Copy)]
pub(crate) struct Edges<'a> {
    pub step: usize,
    pub reads: &'a [u64],
    pub writes: &'a [u64],
}

pub(crate) const SOUND: Edges = Edges {
    step: 65_536,
    reads: &[],
    writes: &[],
};

// A list of these items.
fn list<T: Copy + Drop>(alloc: Global, items: &[T]) -> Result<List<T>, Memory> {
    let mut all = List::new(alloc);
    for item in items {
        all.push(*item).map_err(|_| Memory)?;
    }
    Ok(all)
}

fn all_words(alloc: Global, words: &[&str]) -> Result<Vec<String>, Fail> {
    let mut all = Vec::new(alloc);
    for word in words {
        all.push(String::from_str(alloc, word)?)?;
    }
    Ok(all)
}

/// The text that the pieces are.
pub(crate) fn joined(alloc: Global, pieces: &[&str]) -> Result<String, Fail> {
    let mut text = String::new(alloc);
    for piece in pieces {
        text.push_str(piece)?;
    }
    Ok(text)
}

/// The piece, so many times.
pub(crate) fn repeated(alloc: Global, piece: &str, count: usize) -> Result<String, Fail> {
    let mut text = String::new(alloc);
    for _ in 0..count {
        text.push_str(piece)?;
    }
    Ok(text)
}

/// Whether the program, called with the words, answers the text with the status, so many entries and these lines.
pub(crate) fn answers<R: Threads + Wait + Sync>(
    rt: &R,
    alloc: Global,
    words: &[&str],
    text: &str,
    edges: &Edges,
    (status, entries, lines): (u8, usize, &str),
) -> Result<bool, Fail> {
    let words = all_words(alloc, words)?;
    let bytes = list(alloc, text.as_bytes())?;
    let reads = list(alloc, edges.reads)?;
    let writes = list(alloc, edges.writes)?;
    let mut source = TextSource::new(alloc, bytes, edges.step.max(1), reads);
    let mut sink = TextSink::new(alloc, writes)?;
    let outcome = run(rt, alloc, words.as_slice(), &mut source, &mut sink, &NoGate);
    let is_told = outcome.status == status && outcome.history.len() == entries;
    Ok(is_told && sink.bytes() == lines.as_bytes())
}
