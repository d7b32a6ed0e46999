//! The printed texts of contracts, commands, replies and lines, by `docs/LANGUAGE.md`, "What is printed".
//!
//! A text is written from its beginning to its end into one string, so the time is linear in its length.
#![tactic(auto)]

mod commands;
mod contracts;
mod expressions;
pub mod laws;
mod levels;
mod lines;
mod pieces;
mod replies;
mod words;

pub use commands::command_text;
pub use contracts::{step_text, term_text};
pub use lines::line_text;
pub use replies::reply_text;
pub use words::{name_text, type_text};
