//! Where the first fault of a text stands, its line with a mark below it, and why.
#![tactic(auto)]

mod kept;
mod marking;
mod naming;
mod pieces;
mod places;
mod spots;
mod typing;
mod why;

pub use kept::KeptSource;
pub use marking::mark_of;
