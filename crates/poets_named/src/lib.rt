//! What a legal history answers can be written with the names of its book and its commands.
#![tactic(auto)]

pub mod laws;
