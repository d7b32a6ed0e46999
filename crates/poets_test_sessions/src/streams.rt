//! Reads and writes that are short, fail or cannot fail.

use crate::program::{Edges, SOUND, all_words, answers, first_lines, joined, list};
use poets_clerks::NoGate;
use poets_io::{SureSink, SureSource};
use poets_top::run;
use std::alloc::Global;
use std::process::Abort;
use std::sync::Wait;
use std::test::Fail;
use std::thread::Threads;

/// A contract that is ended at once, and then once more.
pub(crate) const ENDED: &str = "agents ann, bob;; kinds Oil, USD;; clerk;;
register a = Success;; show a;; end a;; end a;;";

const LINES: [&str; 4] = [
    "1 1: register a = Success => registered 1\n",
    "2 1: show a => events 0, may end yes, ended no, residual Success\n",
    "3 1: end a => ended now\n",
    "4 1: end a => already ended\n",
];

const REFUSED: &str = "agents ann, ann;;";

// The status, the number of entries, and how many of the lines are written.
type End = (u8, usize, usize);

// Whether the program, called with the words, answers the text so over such a source and sink.
fn ends<R: Threads + Wait + Sync>(
    rt: &R,
    alloc: Global,
    asked: (&[&str], &str),
    edges: &Edges,
    (status, entries, written): End,
) -> Result<bool, Fail> {
    let lines = first_lines(alloc, &LINES, written)?;
    answers(rt, alloc, asked, edges, (status, entries, lines.as_str()))
}

// The program, called with the words, answers the text so over such a source and sink.
fn answered<R: Abort + Threads + Wait + Sync>(
    rt: &R,
    alloc: Global,
    asked: (&[&str], &str),
    edges: &Edges,
    end: End,
) -> Result<(), Fail> {
    let holds = ends(rt, alloc, asked, edges, end)?;
    assert!(rt; holds, "{asked:?}: {end:?}");
    Ok(())
}

// Short reads change nothing.
fn reads_are_short<R: Abort + Threads + Wait + Sync>(rt: &R, alloc: Global) -> Result<(), Fail> {
    for step in [1, 2, 7, 250] {
        let edges = Edges { step, ..SOUND };
        answered(rt, alloc, (&["run"], ENDED), &edges, (0, 4, 4))?;
    }
    Ok(())
}

const UNREAD: [(&str, u64); 5] = [
    ("run", 1),
    ("run", 2),
    ("run", 3),
    ("check", 1),
    ("replay", 1),
];

// A failing read writes nothing.
fn reads_fail<R: Abort + Threads + Wait + Sync>(rt: &R, alloc: Global) -> Result<(), Fail> {
    for (word, at) in UNREAD {
        let edges = Edges {
            step: 50,
            reads: &[at],
            ..SOUND
        };
        answered(rt, alloc, (&[word], ENDED), &edges, (4, 0, 0))?;
    }
    Ok(())
}

// A failing write leaves whole lines of the history, which is made whole.
fn writes_fail<R: Abort + Threads + Wait + Sync>(rt: &R, alloc: Global) -> Result<(), Fail> {
    for (at, written) in [(1, 0), (2, 1), (3, 2), (4, 3)] {
        let edges = Edges {
            writes: &[at],
            ..SOUND
        };
        answered(rt, alloc, (&["run"], ENDED), &edges, (5, 4, written))?;
    }
    Ok(())
}

const UNWRITTEN: [(&str, &str); 4] = [
    ("check", ""),
    ("check", REFUSED),
    ("run", REFUSED),
    ("replay", REFUSED),
];

// A failing write leaves no line of a book, nor of a text that is refused.
fn only_writes_fail<R: Abort + Threads + Wait + Sync>(rt: &R, alloc: Global) -> Result<(), Fail> {
    let edges = Edges {
        writes: &[1],
        ..SOUND
    };
    for (word, text) in UNWRITTEN {
        answered(rt, alloc, (&[word], text), &edges, (5, 0, 0))?;
    }
    Ok(())
}

#[test]
fn reads_and_writes_are_short_or_fail(rt: HostRuntime) -> Result<(), Fail> {
    reads_are_short(&rt, rt.alloc())?;
    reads_fail(&rt, rt.alloc())?;
    writes_fail(&rt, rt.alloc())?;
    only_writes_fail(&rt, rt.alloc())
}

// Oil that is taken once, and offered twice.
const OFFERED: &str = "agents ann, bob;; kinds Oil, USD;; clerk;;
register c = transmit(a, b, r, t | kind(r) = Oil and amount(r) = 7). Success + Success;;
transmit c ann bob 7 Oil @2006-05-03;; transmit c ann bob 7 Oil @2006-05-03;;";

const REGISTERED: &str =
    "1 1: register c = transmit(a, b, r, t | kind(r) = Oil and amount(r) = 7). Success + Success => registered 1\n";

// The second write fails, and leaves one line of three; or the first read fails, and nothing is written.
#[test]
fn oil_is_offered_until_a_read_or_a_write_fails(rt: HostRuntime) -> Result<(), Fail> {
    let alloc = rt.alloc();
    let edges = Edges {
        writes: &[2],
        ..SOUND
    };
    let asked: (&[&str], &str) = (&["run"], OFFERED);
    assert!(rt; answers(&rt, alloc, asked, &edges, (5, 3, REGISTERED))?);
    let edges = Edges {
        reads: &[1],
        ..SOUND
    };
    assert!(rt; answers(&rt, alloc, asked, &edges, (4, 0, ""))?);
    Ok(())
}

// The status of a run over such a source and sink, how many entries its history has, and how many bytes are written.
fn sure_run<R: Threads + Wait + Sync>(rt: &R, alloc: Global) -> Result<(u8, usize, u64), Fail> {
    let words = all_words(alloc, &["run"])?;
    let mut source = SureSource::new(alloc, list(alloc, ENDED.as_bytes())?);
    let mut sink = SureSink::new();
    let outcome = run(rt, alloc, words.as_slice(), &mut source, &mut sink, &NoGate);
    Ok((outcome.status, outcome.history.len(), sink.taken()))
}

#[test]
fn a_sure_source_and_a_sure_sink_never_fail(rt: HostRuntime) -> Result<(), Fail> {
    let bytes = joined(rt.alloc(), &LINES)?.len() as u64;
    assert_eq!(rt; sure_run(&rt, rt.alloc())?, (0, 4, bytes));
    Ok(())
}
