//! How a run with a disk ends: its status, its history, and what is stored.
ghost use Rattle.std.specs.Prelude.{◌≡◌, []};

use poets_command::Entry;
use poets_value::List;
use poets_writing::Outcome;
use std::alloc::Global;

/// The disk failed. With `keep` the lines of the acknowledged calls were written, with `recover` nothing.
pub const DISK_FAULT: u8 = 7;

/// `keep` found a journal that holds calls already.
pub const HOLDS_CALLS: u8 = 8;

/// The journal is damaged: a record is not whole, or its text is no call of the book.
pub const DAMAGED: u8 = 9;

/// The status that the program ends with, a history, how many calls are stored, and the disk.
///
/// With `keep` the stored calls are those of this run whose append succeeded; they are the first ones of the history.
/// The history is that of the whole session where calls were made and memory was enough, and empty where they were not
/// made. With `recover` their number is that of the texts, where the journal was started. In every other case it is 0.
#[derive(Debug, PartialEq, Eq, Drop)]
pub struct KeptOutcome<D> {
    pub status: u8,
    pub history: List<Entry>,
    pub stored: u64,
    pub disk: D,
}

/// The outcome of a run that put no call on the disk.
pub fn unstored<D>(outcome: Outcome, disk: D) -> KeptOutcome<D>
    ensures status { result.status ≡ outcome.status }
    ensures history { result.history ≡ outcome.history }
    ensures stored { result.stored ≡ 0 }
    ensures disk { result.disk ≡ disk }
{
    KeptOutcome {
        status: outcome.status,
        history: outcome.history,
        stored: 0,
        disk,
    }
}

/// A status without a history.
pub fn stopped<D>(alloc: Global, status: u8, stored: u64, disk: D) -> KeptOutcome<D>
    ensures status { result.status ≡ status }
    ensures history { result.history.items ≡ [] }
    ensures stored { result.stored ≡ stored }
    ensures disk { result.disk ≡ disk }
{
    KeptOutcome {
        status,
        history: List::new(alloc),
        stored,
        disk,
    }
}
