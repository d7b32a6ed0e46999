//! A session of one clerk, its history, and the journal of its calls.

use crate::program::{file_of, joined};
use std::alloc::Global;
use std::test::Fail;

/// The book of the session.
pub(crate) const HEAD: &str = "agents ann, bob;; kinds Oil, USD;;\n";

/// A contract that is ended at once, and then once more.
pub(crate) const ENDED: &str = "agents ann, bob;; kinds Oil, USD;; clerk;;
register a = Success;; show a;; end a;; end a;;";

const LINES: [&str; 4] = [
    "1 1: register a = Success => registered 1\n",
    "2 1: show a => events 0, may end yes, ended no, residual Success\n",
    "3 1: end a => ended now\n",
    "4 1: end a => already ended\n",
];

const TEXTS: [&str; 4] = [
    "1: register a = Success",
    "1: show a",
    "1: end a",
    "1: end a",
];

/// The lines of the first calls, so many.
pub(crate) fn first_lines(alloc: Global, count: usize) -> Result<String, Fail> {
    let mut lines = String::new(alloc);
    for line in LINES.iter().take(count) {
        lines.push_str(line)?;
    }
    Ok(lines)
}

/// All its lines.
pub(crate) fn all_lines(alloc: Global) -> Result<String, Fail> {
    joined(alloc, &LINES)
}

/// The file of its journal.
pub(crate) fn kept_file(alloc: Global) -> Result<Vec<u8>, Fail> {
    file_of(alloc, &TEXTS)
}
