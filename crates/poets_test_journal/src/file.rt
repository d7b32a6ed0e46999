//! A journal in a file of the system.

use crate::making::add;
use poets_disk::FileDisk;
use poets_journal::Journal;
use poets_value::{List, Memory};
use std::alloc::Global;
use std::test::Fail;

const TEXT: &str = "1: end a";

// Starts a journal in the file, which has to be empty, and appends the text.
fn appends(rt: &HostRuntime, alloc: Global) -> Result<bool, Memory> {
    let Ok(started) = Journal::start(alloc, FileDisk::new(rt)) else {
        return Ok(false);
    };
    let mut journal = started.journal;
    Ok(started.texts.is_empty() && add(alloc, &mut journal, TEXT)?)
}

// Whether the text is the only one.
fn is_only(texts: &[List<u8>]) -> bool {
    match texts {
        [text] => text.as_slice() == TEXT.as_bytes(),
        _ => false,
    }
}

// Whether a journal in the file holds the text alone.
fn holds(rt: &HostRuntime, alloc: Global) -> bool {
    match Journal::start(alloc, FileDisk::new(rt)) {
        Ok(started) => is_only(started.texts.as_slice()),
        Err(_) => false,
    }
}

#[test]
fn a_text_in_a_file_is_read_again(rt: HostRuntime) -> Result<(), Fail> {
    assert!(rt; appends(&rt, rt.alloc())?);
    assert!(rt; holds(&rt, rt.alloc()));
    Ok(())
}
