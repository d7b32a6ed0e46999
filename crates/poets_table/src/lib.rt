//! The table of contracts: rows by name, and the log of all recorded events.
#![tactic(auto)]

mod cut;
mod events;
mod laws;
mod rows;
mod table;

pub use cut::Cut;
pub use events::{Events, PIECE_LENGTH};
pub use laws::{pair_of_event, starts_of_rows};
pub use table::{Row, Table};
