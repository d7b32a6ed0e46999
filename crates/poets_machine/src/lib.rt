//! A machine that takes calls one at a time and keeps the list of them.
#![tactic(auto)]

mod machine;

pub use machine::Machine;
