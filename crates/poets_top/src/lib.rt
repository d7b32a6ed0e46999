//! The program's one call: it reads a session, makes its calls, and writes its history.
#![tactic(auto)]

mod checking;
mod demonstrating;
mod explaining;
mod exporting;
pub mod laws;
mod program;
mod replaying;
mod running;
mod tasks;

pub use poets_writing::{
    DONE, NO_MEMORY, NO_SESSION, Outcome, READ_FAULT, TOO_LONG, USAGE, WRITE_FAULT,
};
pub use program::run;
pub use tasks::form_of;
