//! Runs that do not touch the disk: with other words, and with texts that are refused or cannot be read.

use crate::program::{Answer, EMPTY, Edges, ask, repeated};
use crate::session::{ENDED, HEAD, all_lines, kept_file};
use poets_value::Memory;
use std::alloc::Global;
use std::process::Abort;
use std::sync::Wait;
use std::test::Fail;
use std::thread::Threads;

// Whether each image of the disk is this file.
fn is_left(alloc: Global, answer: &Answer, file: &[u8]) -> Result<bool, Memory> {
    for pick in [0, 1, 257] {
        if answer.left(alloc, pick)?.as_slice() != file {
            return Ok(false);
        }
    }
    Ok(true)
}

// Whether the program ends so over a journal whose disk fails at its first call, and leaves it as it is.
fn leaves_disk<R: Threads + Wait + Sync>(
    rt: &R,
    alloc: Global,
    (words, text): (&[&str], &str),
    read: u64,
    (status, entries, lines): (u8, usize, &str),
) -> Result<bool, Fail> {
    let file = kept_file(alloc)?;
    let file = file.as_slice();
    let edges = Edges {
        file,
        disk: 1,
        read,
        ..EMPTY
    };
    let mut answer = ask(rt, alloc, words, text, &edges)?;
    let holds = answer.is((status, entries, 0, lines)) && is_left(alloc, &answer, file)?;
    Ok(answer.is_untouched() && holds)
}

// The program ends so over a journal whose disk fails at its first call, and leaves it as it is.
fn is_untouched<R: Abort + Threads + Wait + Sync>(
    rt: &R,
    alloc: Global,
    asked: (&[&str], &str),
    read: u64,
    wanted: (u8, usize, &str),
) -> Result<(), Fail> {
    assert!(rt;
        leaves_disk(rt, alloc, asked, read, wanted)?,
        "{:?}",
        asked.0
    );
    Ok(())
}

const JOURNAL: &str = "agents ann, bob;; kinds Oil, USD;; journal;; 1: register a = Success;;";

#[test]
fn other_words_do_not_touch_the_disk(rt: HostRuntime) -> Result<(), Fail> {
    let alloc = rt.alloc();
    let lines = all_lines(alloc)?;
    let line = "1 1: register a = Success => registered 1\n";
    let sales = "demo 2: entries 88, registered 16, recorded 32, ended 16, refused 16, paid 72\n";
    let told = "contract a: events 0, may end yes\nway done\n";
    let book = "book: templates 0, reports 0\n";
    is_untouched(&rt, alloc, (&["run"], ENDED), 0, (0, 4, lines.as_str()))?;
    is_untouched(&rt, alloc, (&["replay"], JOURNAL), 0, (0, 1, line))?;
    is_untouched(&rt, alloc, (&["explain", "a"], JOURNAL), 0, (0, 1, told))?;
    is_untouched(&rt, alloc, (&["check"], HEAD), 0, (0, 0, book))?;
    is_untouched(&rt, alloc, (&["demo", "2"], ""), 1, (0, 88, sales))
}

// Words that are no command form. The first read would fail.
const NO_FORMS: [&[&str]; 6] = [
    &[],
    &["keep", "keep"],
    &["keep", "a"],
    &["recover", "1"],
    &["Keep"],
    &["-recover"],
];

#[test]
fn words_that_are_no_form_do_not_touch_the_disk(rt: HostRuntime) -> Result<(), Fail> {
    let alloc = rt.alloc();
    for words in NO_FORMS {
        is_untouched(&rt, alloc, (words, ENDED), 1, (2, 0, ""))?;
    }
    Ok(())
}

// A word, a text of another form or of none, and the line of its first fault.
const NO_SESSIONS: [(&str, &str, &str); 8] = [
    ("keep", JOURNAL, "refused in statement 3: Misplaced\n"),
    (
        "keep",
        "agents ann, ann;;",
        "refused in statement 1: Twice ann\n",
    ),
    ("keep", "agents ann", "refused in statement 1: NoSentence\n"),
    ("keep", "agents ann;; ?", "refused at byte 13: BadByte\n"),
    ("recover", JOURNAL, "refused in statement 3: Misplaced\n"),
    ("recover", ENDED, "refused in statement 3: Misplaced\n"),
    (
        "recover",
        "template k() = m();;",
        "refused in statement 1: Unknown m\n",
    ),
    ("recover", "agents ann;; ?", "refused at byte 13: BadByte\n"),
];

#[test]
fn a_text_that_is_refused_does_not_touch_the_disk(rt: HostRuntime) -> Result<(), Fail> {
    let alloc = rt.alloc();
    for (word, text, line) in NO_SESSIONS {
        is_untouched(&rt, alloc, (&[word], text), 0, (1, 0, line))?;
    }
    for word in ["keep", "recover"] {
        is_untouched(&rt, alloc, (&[word], HEAD), 1, (4, 0, ""))?;
        is_untouched(&rt, alloc, (&[word], HEAD), 2, (4, 0, ""))?;
    }
    Ok(())
}

#[test]
fn a_text_that_is_too_long_does_not_touch_the_disk(rt: HostRuntime) -> Result<(), Fail> {
    let alloc = rt.alloc();
    let text = repeated(alloc, "                ", 1_048_577)?;
    let line = "refused: longer than 16777216 bytes\n";
    is_untouched(&rt, alloc, (&["keep"], text.as_str()), 0, (6, 0, line))
}
