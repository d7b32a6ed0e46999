//! The forms of a session.

/// What a session may have. The forms are those of `docs/LANGUAGE.md`, "Sessions".
#[derive(Debug, Clone, Copy, PartialEq, Eq)]
pub enum Form {
    /// Book statements alone.
    Book,
    /// A book, and a section for each clerk.
    Clerks,
    /// A book, and a journal of numbered commands.
    Journal,
}
