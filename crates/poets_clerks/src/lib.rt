//! Clerks that make the calls of their scripts, each in a thread of its own.
#![tactic(auto)]

mod answers;
mod gate;
mod history;
mod script;
mod scripts;
mod team;

pub use answers::{Done, DoneOf, Worked, WorkedOf};
pub use gate::{Gate, NoGate};
pub use history::{MadeOf, attempt_history, make_history};
pub use scripts::work;
