//! What the words of the command line ask for.
#![tactic(auto)]

mod mode;
mod name;
mod reading;
mod sales;

pub use mode::{Mode, Task, mode_of};
pub use name::ContractName;
