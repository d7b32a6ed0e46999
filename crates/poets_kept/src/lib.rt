//! The program's one call with a disk: it does what `run` does, and what the words that need a disk ask for.
#![tactic(auto)]

pub mod laws;
mod program;
mod words;

pub use poets_keeping::{DAMAGED, DISK_FAULT, HOLDS_CALLS, KeptOutcome};
pub use program::run_kept;
pub use words::{JournalTask, journal_task};
