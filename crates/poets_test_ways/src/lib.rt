//! In which ways events perform contracts, and what contracts are open for, worked out by hand.
#![tactic(auto)]

#[cfg(test)]
mod contracts;
#[cfg(test)]
mod made;
#[cfg(test)]
mod opening;
#[cfg(test)]
mod sentences;
#[cfg(test)]
mod texts;
#[cfg(test)]
mod ways;
