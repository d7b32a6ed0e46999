//! Events.

use crate::{Day, Name, Resource};

/// A transmission: the sender hands the resource to the receiver on the day.
#[derive(Debug, Clone, Copy, PartialEq, Eq)]
pub struct Event {
    pub sender: Name,
    pub receiver: Name,
    pub what: Resource,
    pub day: Day,
}
