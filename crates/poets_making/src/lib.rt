//! Calls are made, one after the other or by clerks all at once, and noted as entries.
#![tactic(auto)]

mod sharing;
mod work;

pub use sharing::{entries_of, make_scripts};
pub use work::make_calls;
