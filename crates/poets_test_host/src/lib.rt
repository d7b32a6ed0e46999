//! The engine as a library, tried by a shop that sells oil.
#![tactic(auto)]

#[cfg(test)]
mod opening;
#[cfg(test)]
mod pieces;
#[cfg(test)]
mod sales;
#[cfg(test)]
mod sharing;
#[cfg(test)]
mod shop;
#[cfg(test)]
mod steps;
