//! Words with which the program reads nothing: those that are no command form, and those of a demonstration.

use crate::program::{Edges, SOUND, ask};
use crate::streams::ENDED;
use std::alloc::Global;
use std::process::Abort;
use std::sync::Wait;
use std::test::Fail;
use std::thread::Threads;

// Whether the program, called with the words, answers so over a sink that fails at these calls, and reads nothing.
fn answers_unread<R: Threads + Wait + Sync>(
    rt: &R,
    alloc: Global,
    words: &[&str],
    writes: &[u64],
    wanted: (u8, usize, &str),
) -> Result<bool, Fail> {
    let edges = Edges {
        reads: &[1],
        writes,
        ..SOUND
    };
    let mut answer = ask(rt, alloc, words, ENDED, &edges)?;
    Ok(answer.is(wanted) && answer.is_unread(alloc, ENDED))
}

// The program, called with the words, answers so over a sink that fails at these calls, and reads nothing.
fn unread<R: Abort + Threads + Wait + Sync>(
    rt: &R,
    alloc: Global,
    words: &[&str],
    writes: &[u64],
    wanted: (u8, usize, &str),
) -> Result<(), Fail> {
    let holds = answers_unread(rt, alloc, words, writes, wanted)?;
    assert!(rt; holds, "{words:?}");
    Ok(())
}

// A name of 65 bytes.
const LONG_NAME: &str = "a2345678901234567890123456789012345678901234567890123456789012345";

// The words are no command form. The first write would fail.
fn no_form<R: Abort + Threads + Wait + Sync>(
    rt: &R,
    alloc: Global,
    words: &[&str],
) -> Result<(), Fail> {
    unread(rt, alloc, words, &[1], (2, 0, ""))
}

#[test]
fn other_words_read_and_write_nothing(rt: HostRuntime) -> Result<(), Fail> {
    let alloc = rt.alloc();
    no_form(&rt, alloc, &[])?;
    for word in ["-h", "runs", "Check", "replays", "demo", "explain", ""] {
        no_form(&rt, alloc, &[word])?;
    }
    for word in ["run", "check", "replay", "demo"] {
        no_form(&rt, alloc, &[word, "run"])?;
    }
    for number in ["0", "1001", "01", "+5"] {
        no_form(&rt, alloc, &["demo", number])?;
    }
    // No name of the language, from its first byte to its last.
    for name in ["", "1", "c ", " c", "c#", "7c", "c;", "register", LONG_NAME] {
        no_form(&rt, alloc, &["explain", name])?;
    }
    no_form(&rt, alloc, &["explain", "a", "b"])
}

// The number, how many entries there are, and what is written: for 2 sales, and for each number of them at which a
// number in the text gets another digit.
const DEMONSTRATIONS: [(&str, usize, &str); 12] = [
    (
        "2",
        88,
        "demo 2: entries 88, registered 16, recorded 32, ended 16, refused 16, paid 72\n",
    ),
    (
        "1",
        48,
        "demo 1: entries 48, registered 8, recorded 16, ended 8, refused 8, paid 24\n",
    ),
    (
        "9",
        368,
        "demo 9: entries 368, registered 72, recorded 144, ended 72, refused 72, paid 1080\n",
    ),
    (
        "10",
        408,
        "demo 10: entries 408, registered 80, recorded 160, ended 80, refused 80, paid 1320\n",
    ),
    (
        "33",
        1_328,
        "demo 33: entries 1328, registered 264, recorded 528, ended 264, refused 264, paid 13464\n",
    ),
    (
        "34",
        1_368,
        "demo 34: entries 1368, registered 272, recorded 544, ended 272, refused 272, paid 14280\n",
    ),
    (
        "99",
        3_968,
        "demo 99: entries 3968, registered 792, recorded 1584, ended 792, refused 792, paid 118800\n",
    ),
    (
        "100",
        4_008,
        "demo 100: entries 4008, registered 800, recorded 1600, ended 800, refused 800, paid 121200\n",
    ),
    (
        "333",
        13_328,
        "demo 333: entries 13328, registered 2664, recorded 5328, ended 2664, refused 2664, paid 1334664\n",
    ),
    (
        "334",
        13_368,
        "demo 334: entries 13368, registered 2672, recorded 5344, ended 2672, refused 2672, paid 1342680\n",
    ),
    (
        "999",
        39_968,
        "demo 999: entries 39968, registered 7992, recorded 15984, ended 7992, refused 7992, paid 11988000\n",
    ),
    (
        "1000",
        40_008,
        "demo 1000: entries 40008, registered 8000, recorded 16000, ended 8000, refused 8000, paid 12012000\n",
    ),
];

#[test]
fn a_demonstration_reads_nothing(rt: HostRuntime) -> Result<(), Fail> {
    let alloc = rt.alloc();
    for (number, entries, line) in DEMONSTRATIONS {
        // Its clerks may come in another order each time, and the line is the same.
        for _ in 0..2 {
            unread(&rt, alloc, &["demo", number], &[], (0, entries, line))?;
        }
    }
    unread(&rt, alloc, &["demo", "2"], &[1], (5, 88, ""))
}
