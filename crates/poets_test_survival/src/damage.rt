//! Journals that are damaged, and journals that hold no call.

use crate::program::{ask, file_of, holding, stays};
use crate::session::{ENDED, HEAD, all_lines, kept_file};
use std::alloc::Global;
use std::sync::Wait;
use std::test::Fail;
use std::thread::Threads;

// The line of a damaged record.
fn damaged(alloc: Global, number: u64) -> Result<String, Fail> {
    Ok(format!(in alloc; "refused: journal damaged at record {number}\n")?)
}

// Each file has the number of its first record that is not whole, or has no byte behind it.
#[test]
fn a_damaged_record_is_told(rt: HostRuntime) -> Result<(), Fail> {
    let alloc = rt.alloc();
    let cases: [(&[u8], u64); 5] = [
        (&[1, 0, 0, 0, 5], 1),
        (&[1, 0], 1),
        (&[1, 0, 0, 0, 0], 1),
        ("\x01\0\0\0\x091: show a".as_bytes(), 1),
        ("\x01\0\0\0\x091: show a\x01\0\0".as_bytes(), 2),
    ];
    for (file, number) in cases {
        let line = damaged(alloc, number)?;
        let end = (9, 0, 0, line.as_str());
        stays(&rt, alloc, ("recover", HEAD), file, end)?;
        stays(&rt, alloc, ("keep", ENDED), file, end)?;
    }
    Ok(())
}

// Texts that are no calls of the book.
const NO_CALLS: [&str; 10] = [
    "",
    "1: show",
    "show a",
    "0: show a",
    "65: show a",
    "1: show a;;",
    "1: register b = sale(ann, bob, 7)",
    "1: transmit a ann carl 1 Oil @2006-01-01",
    "1: transmit a ann Oil 1 bob @2006-01-01",
    "agents carl",
];

// A text that is no call stands between two that are. `keep` reads no text, and tells only how many there are.
#[test]
fn a_text_that_is_no_call_is_told(rt: HostRuntime) -> Result<(), Fail> {
    let alloc = rt.alloc();
    for text in NO_CALLS {
        let file = file_of(alloc, &["1: register a = Success", text, "1: show a"])?;
        let line = damaged(alloc, 2)?;
        let file = file.as_slice();
        stays(
            &rt,
            alloc,
            ("recover", HEAD),
            file,
            (9, 0, 3, line.as_str()),
        )?;
        let holds = "refused: journal holds 3 calls\n";
        stays(&rt, alloc, ("keep", ENDED), file, (8, 0, 0, holds))?;
    }
    Ok(())
}

// Whether no call is recovered from this file.
fn holds_no_call<R: Threads + Wait + Sync>(
    rt: &R,
    alloc: Global,
    file: &[u8],
) -> Result<bool, Fail> {
    let recovered = ask(rt, alloc, &["recover"], HEAD, &holding(file))?;
    Ok(recovered.is((0, 0, 0, "")))
}

// Whether a session is kept over this file as over an empty one.
fn is_kept<R: Threads + Wait + Sync>(rt: &R, alloc: Global, file: &[u8]) -> Result<bool, Fail> {
    let lines = all_lines(alloc)?;
    let wanted = kept_file(alloc)?;
    let kept = ask(rt, alloc, &["keep"], ENDED, &holding(file))?;
    let left = kept.left(alloc, 1)?;
    Ok(kept.is((0, 4, 4, lines.as_str())) && left.as_slice() == wanted.as_slice())
}

// A file of at most one byte, or with a closed gate, holds no call.
#[test]
fn a_journal_may_hold_no_call(rt: HostRuntime) -> Result<(), Fail> {
    let alloc = rt.alloc();
    let files: [&[u8]; 5] = [&[], &[0], &[1], &[7], &[0, 1, 0, 0, 0, 5]];
    for file in files {
        assert!(rt; holds_no_call(&rt, alloc, file)?, "recover over {file:?}");
        assert!(rt; is_kept(&rt, alloc, file)?, "keep over {file:?}");
    }
    Ok(())
}
