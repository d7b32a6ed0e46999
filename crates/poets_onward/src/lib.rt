//! A machine that goes on after calls that it took before.
#![tactic(auto)]

mod onward;

pub use onward::{Onward, OnwardFrame, OnwardKept};
