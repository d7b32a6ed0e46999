//! A turnstile: clerks in many threads call one machine, one at a time, and each call is one entry of one history.
#![tactic(auto)]

mod bells;
mod call;
mod clerks;
mod close;
mod rule;
mod start;
mod types;
mod view;

pub use types::{Clerk, ClerkOf, Note, NoteOf, Turn};
