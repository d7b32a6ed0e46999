//! Reports that are kept live: each has its answer over the events so far.
#![tactic(auto)]

mod course;
mod laws;
mod watch;
mod watches;

pub use laws::{led_to_events, one_event_more};
pub use watches::{Seen, Watches};
