//! The engine as a library: what a program does that opens a book, makes calls, and lets clerks share its engine.
#![tactic(auto)]

mod calling;
mod commands;
mod delivery;
mod opening;
mod sharing;
mod tallying;

pub use calling::{call, is_accepted};
pub use commands::{checked, handed, registration};
pub use delivery::deliver;
pub use opening::{Host, open};
pub use sharing::share;
pub use tallying::tally;
