//! Machines that go on, tried by adders.
#![tactic(auto)]

#[cfg(test)]
mod tries;
