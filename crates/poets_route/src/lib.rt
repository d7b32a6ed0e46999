//! In which way a trace performs a contract.
#![tactic(auto)]

mod backward;
mod bodies;
mod chosen;
mod endings;
mod explaining;
mod grouping;
mod normalizing;
mod reading;
mod sides;
mod undoing;

pub use explaining::explain;
