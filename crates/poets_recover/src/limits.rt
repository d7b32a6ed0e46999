//! How much a journal may hold.

/// The most bytes that the texts of a journal have together.
pub const MOST_STORED: usize = 4_000_000_000;
