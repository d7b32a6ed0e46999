//! Guarded books, and what is known of their templates.
#![tactic(auto)]

mod cycles;
mod endings;
mod graph;
mod guard;
mod rules;
mod visits;
mod widths;

pub use guard::{GuardFault, study};
