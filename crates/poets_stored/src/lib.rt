//! The commands of a session as texts in a journal: each with its clerk's number, as `1: register a = Success`.
#![tactic(auto)]

pub mod laws;
mod put;

pub use put::CommandPut;
