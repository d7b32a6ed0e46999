//! Limits that several crates share.

/// The most bytes of a text.
pub const LONGEST_TEXT: usize = 16_777_216;

/// The most clerks that work at once.
pub const MOST_CLERKS: u64 = 64;

/// The most sales of each clerk of a demonstration.
pub const MOST_SALES: u32 = 1000;
