//! Many commands on a contract that is not there, and many templates.

use crate::books::HEAD;
use crate::program::{SOUND, answered, answers, joined, numbered, repeated};
use std::alloc::Global;
use std::sync::Wait;
use std::test::Fail;
use std::thread::Threads;

// The session that shows a contract so many times.
fn session(alloc: Global, count: usize) -> Result<String, Fail> {
    let shows = repeated(alloc, "show a;;\n", count)?;
    joined(alloc, &[HEAD, "clerk;;\n", shows.as_str()])
}

#[test]
fn a_contract_that_is_not_there_is_shown_65536_times(rt: HostRuntime) -> Result<(), Fail> {
    let alloc = rt.alloc();
    let text = session(alloc, 65_536)?;
    let lines = numbered(alloc, (1, 65_536), ("", " 1: show a => no contract a\n"))?;
    let row = ("65536 times show", text.as_str());
    answered(&rt, alloc, row, (0, 65_536, lines.as_str()))
}

#[test]
fn a_contract_is_not_shown_65537_times(rt: HostRuntime) -> Result<(), Fail> {
    let alloc = rt.alloc();
    let text = session(alloc, 65_537)?;
    let too_many = (1, 0, "refused in statement 65540: TooMany\n");
    answered(&rt, alloc, ("65537 times show", text.as_str()), too_many)
}

// Whether a book of so many templates, each with a name of its own, is answered so.
fn are_checked<R: Threads + Wait + Sync>(
    rt: &R,
    alloc: Global,
    count: u32,
    wanted: (u8, usize, &str),
) -> Result<bool, Fail> {
    let text = numbered(alloc, (1, count), ("template t", "() = Success;;\n"))?;
    answers(rt, alloc, (&["check"], text.as_str()), &SOUND, wanted)
}

#[test]
fn a_book_has_at_most_256_templates(rt: HostRuntime) -> Result<(), Fail> {
    let alloc = rt.alloc();
    let whole = (0, 0, "book: templates 256, reports 0\n");
    assert!(rt; are_checked(&rt, alloc, 256, whole)?);
    let too_many = (1, 0, "refused in statement 257: TooMany\n");
    assert!(rt; are_checked(&rt, alloc, 257, too_many)?);
    Ok(())
}
