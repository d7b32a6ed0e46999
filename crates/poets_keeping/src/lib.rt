//! The calls of a session kept in a journal, and those that a journal holds, made.
#![tactic(auto)]

mod journal;
mod keeping;
mod outcome;
mod recovering;
mod work;
mod writing;

pub use journal::{damaged_line, holds_line};
pub use keeping::{keep, keep_scripts};
pub use outcome::{DAMAGED, DISK_FAULT, HOLDS_CALLS, KeptOutcome, stopped, unstored};
pub use recovering::recover_journal;
pub use writing::{tell, write_entries};
