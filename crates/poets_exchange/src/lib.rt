//! What is exported of a session's book and a legal history is read back as the same.
#![tactic(auto)]

pub mod laws;
