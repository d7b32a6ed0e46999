//! The laws of what is exported, each stated by a function that does nothing.
ghost use Rattle.poets_exchange.specs.Laws.{BooksDeclareThemselves, SessionBooksCanBeExported};
ghost use Rattle.poets_exchange.specs.Laws.{JournalsCanBeExported, ExportedAreDocuments, ExportedAreReadBack};
ghost use Rattle.poets_exchange.specs.Laws.{JournalsAreReadBack};

/// The statements of a book that is exported declare that book, and its reports.
pub fn books_declare_themselves()
    ensures { BooksDeclareThemselves }
{}

/// The book of a session, with its reports, can be exported with the names of the session.
pub fn session_books_can_be_exported()
    ensures { SessionBooksCanBeExported }
{}

/// A legal history of the calls of a session's journal can be exported with the names of the session.
pub fn journals_can_be_exported()
    ensures { JournalsCanBeExported }
{}

/// The document of a book and a legal history is a document of just these, with the names that it was written with.
pub fn exported_are_documents()
    ensures { ExportedAreDocuments }
{}

/// The bytes of the document of a book and a legal history are read as that book and that history, with the same names,
/// and as nothing else.
pub fn exported_are_read_back()
    ensures { ExportedAreReadBack }
{}

/// The bytes of the document of a journal, as `poets export` writes it, are read as the book of the journal and the
/// history, with the same names, and as nothing else.
pub fn journals_are_read_back()
    ensures { JournalsAreReadBack }
{}
