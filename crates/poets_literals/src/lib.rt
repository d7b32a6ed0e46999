//! Values from their texts: what `poets_print` prints of a value is read again.
//!
//! A value's text is its literal, or the name of an agent or a kind, written just as it is printed: `5` and neither
//! `+5` nor `05`, and `[5 Oil]` with one space. The time is linear in the length of the text.
#![tactic(auto)]

mod days;
pub mod laws;
mod names;
mod numbers;
mod resources;
mod values;

pub use days::read_day;
pub use values::read_value;
