//! The calculus: alike contracts, the normal form and the residual, and their laws.
#![tactic(auto)]

mod examples;
pub mod laws;
