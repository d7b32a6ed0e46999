//! A report over each of several contracts, its rows made in parallel.
#![tactic(auto)]

mod folio;
mod total;

pub use folio::{Part, portfolio};
