//! Values of the contract language: names, civil days, resources, events, and lists that own their items.
#![tactic(auto)]

mod day;
mod event;
mod fault;
pub mod laws;
mod limits;
mod list;
mod value;

pub use day::Day;
pub use event::Event;
pub use fault::{DayFault, Memory};
pub use limits::{LONGEST_TEXT, MOST_CLERKS, MOST_SALES};
pub use list::{List, push};
pub use value::{Name, Resource, Ty, Value};
