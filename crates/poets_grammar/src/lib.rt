//! Which lists of tokens are statements of a session, and what they say.
#![tactic(auto)]

mod examples;
pub mod laws;
mod level;
mod limits;

pub use level::Level;
pub use limits::{MOST_OPEN, MOST_OPEN_STORED, MOST_OPERATORS};
