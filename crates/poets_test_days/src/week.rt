//! Three days of one clerk, and what they write.

use crate::program::{file_of, joined};
use std::alloc::Global;
use std::test::Fail;

/// The book of each day.
pub(crate) const HEAD: &str = "agents ann, bob;; kinds Oil, USD;;\n";

/// The first day.
pub(crate) const MONDAY: &str = "agents ann, bob;; kinds Oil, USD;; clerk;;
register a = Success;; show a;;";

/// The second day, on which the name `b` is new.
pub(crate) const TUESDAY: &str = "agents ann, bob;; kinds Oil, USD;; clerk;;
show a;; register b = Success;; end a;;";

/// The third day, on which there are two names of contracts that the book does not declare.
pub(crate) const WEDNESDAY: &str = "agents ann, bob;; kinds Oil, USD;; clerk;;
end a;; end b;;";

/// All calls, as a journal.
pub(crate) const ALL: &str = "agents ann, bob;; kinds Oil, USD;; journal;;
1: register a = Success;; 1: show a;;
1: show a;; 1: register b = Success;; 1: end a;;
1: end a;; 1: end b;;";

/// The lines of the first day.
pub(crate) const FIRST: &str = "1 1: register a = Success => registered 1
2 1: show a => events 0, may end yes, ended no, residual Success
";

const SECOND: [&str; 3] = [
    "3 1: show a => events 0, may end yes, ended no, residual Success\n",
    "4 1: register b = Success => registered 2\n",
    "5 1: end a => ended now\n",
];

/// The lines of the third day.
pub(crate) const THIRD: &str = "6 1: end a => already ended
7 1: end b => ended now
";

/// The first lines of the second day, so many.
pub(crate) fn second_lines(alloc: Global, count: usize) -> Result<String, Fail> {
    let mut lines = String::new(alloc);
    for line in SECOND.iter().take(count) {
        lines.push_str(line)?;
    }
    Ok(lines)
}

/// The lines of the three days.
pub(crate) fn all_lines(alloc: Global) -> Result<String, Fail> {
    let second = second_lines(alloc, 3)?;
    joined(alloc, &[FIRST, second.as_str(), THIRD])
}

/// The file of the journal after the first day.
pub(crate) fn first_file(alloc: Global) -> Result<Vec<u8>, Fail> {
    file_of(alloc, &["1: register a = Success", "1: show a"])
}
