//! The program, as the tests ask it.

use crate::gate::{Hold, HoldingGate};
use poets_io::{ReadFault, TextSink, TextSource, read_up_to};
use poets_top::run;
use poets_value::{List, Memory};
use std::alloc::Global;
use std::process::Abort;
use std::sync::Wait;
use std::test::Fail;
use std::thread::Threads;

/// How the source, the sink and the gate behave: the bytes of a read, the reads and writes that fail, and the clerks'
/// calls that are held: before their turns until another call is answered, before them until another's turn is over, or
/// behind their own turns until another call is answered.
#[derive(Clone, Copy)]
pub(crate) struct Edges<'a> {
    pub step: usize,
    pub reads: &'a [u64],
    pub writes: &'a [u64],
    pub held: &'a [Hold],
    pub held_behind: &'a [Hold],
    pub held_outside: &'a [Hold],
}

pub(crate) const SOUND: Edges = Edges {
    step: 65_536,
    reads: &[],
    writes: &[],
    held: &[],
    held_behind: &[],
    held_outside: &[],
};

/// A list of these items.
pub(crate) fn list<T: Copy + Drop>(alloc: Global, items: &[T]) -> Result<List<T>, Memory> {
    let mut all = List::new(alloc);
    for item in items {
        all.push(*item).map_err(|_| Memory)?;
    }
    Ok(all)
}

pub(crate) fn all_words(alloc: Global, words: &[&str]) -> Result<Vec<String>, Fail> {
    let mut all = Vec::new(alloc);
    for word in words {
        all.push(String::from_str(alloc, word)?)?;
    }
    Ok(all)
}

/// The text that the pieces are.
pub(crate) fn joined(alloc: Global, pieces: &[&str]) -> Result<String, Fail> {
    let mut text = String::new(alloc);
    for piece in pieces {
        text.push_str(piece)?;
    }
    Ok(text)
}

/// The piece, so many times.
pub(crate) fn repeated(alloc: Global, piece: &str, count: usize) -> Result<String, Fail> {
    let mut text = String::new(alloc);
    for _ in 0..count {
        text.push_str(piece)?;
    }
    Ok(text)
}

/// For each number from the first to the last what stands before it, the number, and what stands after it.
pub(crate) fn numbered(
    alloc: Global,
    (first, last): (u32, u32),
    (before, after): (&str, &str),
) -> Result<String, Fail> {
    let mut text = String::new(alloc);
    for number in first..=last {
        let piece = format!(in alloc; "{before}{number}{after}")?;
        text.push_str(piece.as_str())?;
    }
    Ok(text)
}

/// What the program answered, and what it left.
#[derive(Drop)]
pub(crate) struct Answer {
    status: u8,
    entries: usize,
    source: TextSource,
    sink: TextSink,
    gate: HoldingGate,
}

impl Answer {
    /// Whether this is the status, there are so many entries, these lines are written, and no call was held in vain.
    pub(crate) fn is(&self, (status, entries, lines): (u8, usize, &str)) -> bool {
        self.status == status
            && self.entries == entries
            && self.sink.bytes() == lines.as_bytes()
            && !self.gate.has_given_up()
    }

    /// Whether the source, whose first read fails, was not read: it still fails then, and goes on with the whole text.
    pub(crate) fn is_unread(&mut self, alloc: Global, text: &str) -> bool {
        let first = read_up_to(alloc, &mut self.source, text.len());
        let second = read_up_to(alloc, &mut self.source, text.len());
        matches!(first, Err(ReadFault::Failed))
            && matches!(second, Ok(bytes) if bytes.as_slice() == text.as_bytes())
    }
}

/// What the program, called with the words, answers to the text.
pub(crate) fn ask<R: Threads + Wait + Sync>(
    rt: &R,
    alloc: Global,
    words: &[&str],
    text: &str,
    edges: &Edges,
) -> Result<Answer, Fail> {
    let words = all_words(alloc, words)?;
    let bytes = list(alloc, text.as_bytes())?;
    let reads = list(alloc, edges.reads)?;
    let writes = list(alloc, edges.writes)?;
    let mut source = TextSource::new(alloc, bytes, edges.step.max(1), reads);
    let mut sink = TextSink::new(alloc, writes)?;
    let gate = HoldingGate::new(alloc, edges.held, edges.held_behind, edges.held_outside)?;
    let outcome = run(rt, alloc, words.as_slice(), &mut source, &mut sink, &gate);
    Ok(Answer {
        status: outcome.status,
        entries: outcome.history.len(),
        source,
        sink,
        gate,
    })
}

/// Whether the program, called with the words, answers the text with the status, so many entries and these lines.
pub(crate) fn answers<R: Threads + Wait + Sync>(
    rt: &R,
    alloc: Global,
    (words, text): (&[&str], &str),
    edges: &Edges,
    wanted: (u8, usize, &str),
) -> Result<bool, Fail> {
    Ok(ask(rt, alloc, words, text, edges)?.is(wanted))
}

/// The first of the lines, so many.
pub(crate) fn first_lines(alloc: Global, lines: &[&str], count: usize) -> Result<String, Fail> {
    let mut text = String::new(alloc);
    for line in lines.iter().take(count) {
        text.push_str(line)?;
    }
    Ok(text)
}

/// `run` answers the text with the status, so many entries and these lines.
pub(crate) fn answered<R: Abort + Threads + Wait + Sync>(
    rt: &R,
    alloc: Global,
    (about, text): (&str, &str),
    wanted: (u8, usize, &str),
) -> Result<(), Fail> {
    let holds = answers(rt, alloc, (&["run"], text), &SOUND, wanted)?;
    assert!(rt; holds, "{about}");
    Ok(())
}
