//! What was printed under one table of names, read under another.
#![tactic(auto)]

pub mod laws;
