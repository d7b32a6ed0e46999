//! Calls are kept, recovered and refused a second time.

use crate::program::{EMPTY, ask, file_of, stays};
use crate::session::{ENDED, HEAD, all_lines, kept_file};
use std::test::Fail;

#[test]
fn calls_are_kept(rt: HostRuntime) -> Result<(), Fail> {
    let alloc = rt.alloc();
    let lines = all_lines(alloc)?;
    let kept = ask(&rt, alloc, &["keep"], ENDED, &EMPTY)?;
    assert!(rt; kept.is((0, 4, 4, lines.as_str())));
    let file = kept.left(alloc, 0)?;
    let first = "\x01\x00\x00\x00\x171: register a = Success";
    assert!(rt; file.as_slice().starts_with(first.as_bytes()));
    assert_eq!(rt; file.as_slice(), kept_file(alloc)?.as_slice());
    Ok(())
}

#[test]
fn kept_calls_are_recovered_and_not_kept_again(rt: HostRuntime) -> Result<(), Fail> {
    let alloc = rt.alloc();
    let lines = all_lines(alloc)?;
    let kept = kept_file(alloc)?;
    let file = kept.as_slice();
    let holds = "refused: journal holds 4 calls\n";
    stays(
        &rt,
        alloc,
        ("recover", HEAD),
        file,
        (0, 4, 4, lines.as_str()),
    )?;
    stays(&rt, alloc, ("keep", ENDED), file, (8, 0, 0, holds))
}

// A book is a session of no clerk.
#[test]
fn a_book_leaves_an_empty_journal(rt: HostRuntime) -> Result<(), Fail> {
    let alloc = rt.alloc();
    let kept = ask(&rt, alloc, &["keep"], HEAD, &EMPTY)?;
    let file = kept.left(alloc, 1)?;
    let holds = kept.is((0, 0, 0, "")) && file.as_slice() == [0].as_slice();
    drop((kept, file));
    assert!(rt; holds);
    Ok(())
}

#[test]
fn a_journal_names_any_clerk(rt: HostRuntime) -> Result<(), Fail> {
    let alloc = rt.alloc();
    let texts = ["64: register z = Success", "1: register z = Success"];
    let file = file_of(alloc, &texts)?;
    let lines = "1 64: register z = Success => registered 1
2 1: register z = Success => name taken by 1
";
    stays(
        &rt,
        alloc,
        ("recover", HEAD),
        file.as_slice(),
        (0, 2, 2, lines),
    )
}
