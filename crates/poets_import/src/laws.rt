//! The law of documents, stated by a function that does nothing.
ghost use Rattle.poets_import.specs.Laws.{OneDocument};

/// A value is the document of one book with its reports and one history at most, and leaves one table of names.
pub fn one_document()
    ensures { OneDocument }
{}
