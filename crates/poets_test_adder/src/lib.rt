//! A small machine that adds, for tests of the turnstile, the clerks and the journal.
#![tactic(auto)]

mod adder;

pub use adder::{Adder, Sum};
