//! Lines that cannot be written.

use crate::program::{EMPTY, Edges, ask, file_of};
use crate::session::{ENDED, HEAD, first_lines, kept_file};
use std::alloc::Global;
use std::process::Abort;
use std::sync::Wait;
use std::test::Fail;
use std::thread::Threads;

// The status, how many entries the history has, how many calls are stored, and how many lines are written.
type End = (u8, usize, u64, usize);

// The program, called with the word, ends so over these edges.
fn ends<R: Abort + Threads + Wait + Sync>(
    rt: &R,
    alloc: Global,
    word: &str,
    edges: &Edges,
    (status, entries, stored, written): End,
) -> Result<(), Fail> {
    let text = if word == "keep" { ENDED } else { HEAD };
    let lines = first_lines(alloc, written)?;
    let answer = ask(rt, alloc, &[word], text, edges)?;
    assert!(rt;
        answer.is((status, entries, stored, lines.as_str())),
        "{word}, where write {} fails over {:?}",
        edges.write,
        edges.file
    );
    Ok(())
}

// Of a run of `keep` the call of the disk that fails, the write that fails, the status, and how many calls are stored
// and how many lines are written.
const UNWRITTEN: [(u64, u64, u8, u64, usize); 5] = [
    (99, 1, 5, 4, 0),
    (99, 4, 5, 4, 3),
    (10, 1, 5, 1, 0),
    (14, 2, 5, 2, 1),
    // Only two lines are written.
    (14, 3, 7, 2, 2),
];

// What cannot be written is told ahead of what else there is to tell. The calls are stored all the same.
#[test]
fn kept_calls_are_not_written(rt: HostRuntime) -> Result<(), Fail> {
    let alloc = rt.alloc();
    for (disk, write, status, stored, written) in UNWRITTEN {
        let edges = Edges {
            disk,
            write,
            ..EMPTY
        };
        ends(&rt, alloc, "keep", &edges, (status, 4, stored, written))?;
    }
    Ok(())
}

#[test]
fn what_a_journal_holds_is_not_written(rt: HostRuntime) -> Result<(), Fail> {
    let alloc = rt.alloc();
    let kept = kept_file(alloc)?;
    let odd = file_of(alloc, &["1: show a", "no call"])?;
    let cases: [(&str, &[u8], u64, End); 6] = [
        ("keep", kept.as_slice(), 1, (5, 0, 0, 0)),
        ("recover", kept.as_slice(), 1, (5, 4, 4, 0)),
        ("recover", kept.as_slice(), 3, (5, 4, 4, 2)),
        ("keep", &[1, 0, 0, 0, 5], 1, (5, 0, 0, 0)),
        ("recover", &[1, 0, 0, 0, 5], 1, (5, 0, 0, 0)),
        ("recover", odd.as_slice(), 1, (5, 0, 2, 0)),
    ];
    for (word, file, write, end) in cases {
        let edges = Edges {
            file,
            write,
            ..EMPTY
        };
        ends(&rt, alloc, word, &edges, end)?;
    }
    Ok(())
}
