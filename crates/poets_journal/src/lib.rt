//! A journal of texts in one file, which a crash at any moment leaves whole, and a machine whose calls go into one.
#![tactic(auto)]

mod journal;
mod journaled;
pub mod laws;
mod put;
mod records;
mod start;

pub use journal::Journal;
pub use journaled::{Journaled, JournaledFrame};
pub use put::Put;
pub use records::frame;
pub use start::{StartFault, Started};
