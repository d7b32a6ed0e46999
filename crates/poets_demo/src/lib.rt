//! The demonstration: its text, and the line that sums up its history.
#![tactic(auto)]

mod line;
mod text;

pub use line::demo_line;
pub use text::demo_text;
