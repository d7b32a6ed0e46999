//! A history or a line is written to a sink, and how that ends.
#![tactic(auto)]

mod outcome;
mod writing;

pub use outcome::{
    DONE, NO_MEMORY, NO_SESSION, Outcome, READ_FAULT, TOO_LONG, USAGE, WRITE_FAULT, without_history,
};
pub use writing::{WriteFault, write, write_history, write_line, write_lines, write_outcome};
