//! The engine, for one thread: each reply is that of an engine which is only a list of calls.
#![tactic(auto)]

mod accounts;
mod copies;
mod ends;
mod engine;
mod judging;
mod kept;
pub mod laws;
mod looks;
mod machine;
mod portfolios;
mod registration;
mod steps;
mod store;
mod tallies;
mod transmission;
mod watching;
mod withdrawal;

pub use accounts::Account;
pub use engine::Engine;
pub use kept::{Body, FolioWork, Kept};
