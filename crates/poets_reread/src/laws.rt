//! Laws of calls that are read again, each stated by a function that does nothing.
ghost use Rattle.poets_reread.specs.Laws.{TextsAreReread, CallsOfSessionsAreReread, FirstCallsAreReread};
ghost use Rattle.poets_reread.specs.Laws.{BooksAreNumberedFirst};

/// The texts of calls that were read under one table of names are calls under another, which has the names of the book
/// in the same places. They have these texts again.
pub fn texts_are_reread()
    ensures { TextsAreReread }
{}

/// The texts of calls of a session of clerks are calls of its book, under the book's own table of names. They have
/// these texts again.
pub fn calls_of_sessions_are_reread()
    ensures { CallsOfSessionsAreReread }
{}

/// The texts of the first calls of a history of a session, however many, are calls of the session's book, under the
/// book's own table of names. They have these texts again.
pub fn first_calls_are_reread()
    ensures { FirstCallsAreReread }
{}

/// Where a text is a book, a line end and more, the names of the book have their places in the text's table.
pub fn books_are_numbered_first()
    ensures { BooksAreNumberedFirst }
{}
