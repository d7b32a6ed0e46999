//! How a run ends: its status and its history.
ghost use Rattle.std.specs.Prelude.{◌≡◌, []};

use poets_command::Entry;
use poets_value::List;
use std::alloc::Global;

/// The text was written whole.
pub const DONE: u8 = 0;

/// The text is no session of the form; the line of its first fault was written.
pub const NO_SESSION: u8 = 1;

/// The words are no command form.
pub const USAGE: u8 = 2;

/// Out of memory.
pub const NO_MEMORY: u8 = 3;

/// Reading failed.
pub const READ_FAULT: u8 = 4;

/// Writing failed.
pub const WRITE_FAULT: u8 = 5;

/// The text is longer than a session may be.
pub const TOO_LONG: u8 = 6;

/// The status that the program ends with, and a history. The history of a session of clerks, of a journal or of a
/// demonstration is that of the whole session where the status is `DONE`, and where it is `WRITE_FAULT` after the
/// calls; it is that or none where the status is `NO_MEMORY`. Else, and for a book, there is none.
#[derive(Debug, PartialEq, Eq, Drop)]
pub struct Outcome {
    pub status: u8,
    pub history: List<Entry>,
}

/// A status without a history.
pub fn without_history(alloc: Global, status: u8) -> Outcome
    ensures status { result.status ≡ status }
    ensures history { result.history.items ≡ [] }
{
    Outcome {
        status,
        history: List::new(alloc),
    }
}
