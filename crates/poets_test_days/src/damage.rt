//! Journals that are damaged, and texts that are refused.

use crate::program::{Edges, End, ask, file_of, holding, stays};
use crate::week::{ALL, MONDAY, first_file};
use std::alloc::Global;
use std::sync::Wait;
use std::test::Fail;
use std::thread::Threads;

// The line of a damaged record.
fn damaged(alloc: Global, number: u64) -> Result<String, Fail> {
    Ok(format!(in alloc; "refused: journal damaged at record {number}\n")?)
}

// Each file has the number of its first record that is not whole, or has no byte behind it.
#[test]
fn a_damaged_record_is_told(rt: HostRuntime) -> Result<(), Fail> {
    let alloc = rt.alloc();
    let cases: [(&[u8], u64); 5] = [
        (&[1, 0, 0, 0, 5], 1),
        (&[1, 0], 1),
        (&[1, 0, 0, 0, 0], 1),
        ("\x01\0\0\0\x091: show a".as_bytes(), 1),
        ("\x01\0\0\0\x091: show a\x01\0\0".as_bytes(), 2),
    ];
    for (file, number) in cases {
        let line = damaged(alloc, number)?;
        stays(
            &rt,
            alloc,
            ("resume", MONDAY),
            file,
            (9, 0, 0, line.as_str()),
        )?;
    }
    Ok(())
}

// A text that is no call of the book stands between two that are.
#[test]
fn a_text_that_is_no_call_is_told(rt: HostRuntime) -> Result<(), Fail> {
    let alloc = rt.alloc();
    for text in ["", "show a", "0: show a", "65: show a", "agents carl"] {
        let file = file_of(alloc, &["1: register a = Success", text, "1: show a"])?;
        let line = damaged(alloc, 2)?;
        let wanted = (9, 0, 0, line.as_str());
        stays(&rt, alloc, ("resume", MONDAY), file.as_slice(), wanted)?;
    }
    Ok(())
}

// Whether the program, called with the words, ends so and does not touch the disk, whose first call fails.
fn leaves_disk<R: Threads + Wait + Sync>(
    rt: &R,
    alloc: Global,
    (words, text): (&[&str], &str),
    edges: &Edges,
    wanted: End,
) -> Result<bool, Fail> {
    let mut answer = ask(rt, alloc, words, text, edges)?;
    Ok(answer.is(wanted) && answer.is_untouched())
}

// A text that is no session of clerks is refused ahead of the journal.
#[test]
fn a_refused_text_does_not_touch_the_disk(rt: HostRuntime) -> Result<(), Fail> {
    let alloc = rt.alloc();
    let file = first_file(alloc)?;
    let edges = Edges {
        disk: 1,
        ..holding(file.as_slice())
    };
    let cases = [
        (ALL, "refused in statement 3: Misplaced\n"),
        ("agents ann;; ?", "refused at byte 13: BadByte\n"),
    ];
    for (text, line) in cases {
        let asked: (&[&str], &str) = (&["resume"], text);
        assert!(rt; leaves_disk(&rt, alloc, asked, &edges, (1, 0, 0, line))?);
    }
    let asked: (&[&str], &str) = (&["resume", "a"], MONDAY);
    assert!(rt; leaves_disk(&rt, alloc, asked, &edges, (2, 0, 0, ""))?);
    Ok(())
}
