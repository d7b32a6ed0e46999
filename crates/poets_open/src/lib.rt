//! The transmissions that a contract is open for.
#![tactic(auto)]

mod bodies;
pub mod laws;
mod opening;

pub use opening::{Step, next};
