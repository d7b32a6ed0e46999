//! How long, and how deep, a printed command is, compared with the text that it was read from.
#![tactic(auto)]

pub mod laws;
