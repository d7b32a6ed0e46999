//! How deep a statement may be nested.

/// The most brackets that a statement may have open at one place.
pub const MOST_OPEN: usize = 200;

/// The most brackets that a printed statement may have open at one place: printing may open one more than the source
/// had.
pub const MOST_OPEN_STORED: usize = 201;

/// The most operators of a statement.
pub const MOST_OPERATORS: usize = 1000;
