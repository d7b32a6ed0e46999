//! Gates, by which tests hold a clerk back.

/// Hears of the stages of each call, and may hold the clerk there. Calls are counted from 1. To contracts a gate means
/// nothing.
pub trait Gate {
    /// The clerk is about to wait for its turn.
    fn before(&self, clerk: u32, call: u64);

    /// The turn is over, and the reply is still to be finished.
    fn outside(&self, clerk: u32, call: u64);

    /// The reply is there.
    fn after(&self, clerk: u32, call: u64);
}

/// A gate that holds nobody back.
#[derive(Debug, Clone, Copy, PartialEq, Eq)]
pub struct NoGate;

impl Gate for NoGate {
    fn before(&self, clerk: u32, call: u64) {}

    fn outside(&self, clerk: u32, call: u64) {}

    fn after(&self, clerk: u32, call: u64) {}
}
