//! A studied book and its reports.
#![tactic(auto)]

mod rules;

pub use rules::Rules;
