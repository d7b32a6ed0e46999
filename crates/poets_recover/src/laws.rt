//! Laws of the texts of a journal, each carried by a function that does nothing.
ghost use Rattle.poets_recover.specs.Laws.{CallsAreNotRefused, MostStoredIs};

/// Texts that are calls of a book, and have no more bytes than the most, are not refused.
pub fn calls_are_not_refused()
    ensures { CallsAreNotRefused }
{}

/// The texts of a journal have at most 4,000,000,000 bytes together.
pub fn most_stored_is()
    ensures { MostStoredIs }
{}
