//! Values and what reports answer, by the public functions of the crates that the modules are named after.
#![tactic(auto)]

#[cfg(test)]
mod report;
#[cfg(test)]
mod value;
