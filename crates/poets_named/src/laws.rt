//! The laws of what can be written of residuals, answers and replies, each stated by a function that does nothing.
ghost use Rattle.poets_named.specs.Laws.{ResidualsCanBeWritten, AnswersAreDeclared, RepliesCanBeWritten};
ghost use Rattle.poets_named.specs.Laws.{BooksOfSessionsCanBeWritten, BooksStayWritten};

/// A residual can be written with a table of names that its contract, its book and the events of its trace can be
/// written with.
pub fn residuals_can_be_written()
    ensures { ResidualsCanBeWritten }
{}

/// Each agent and kind in what a typed report answers is declared as such, and each number and day is one of the
/// language.
pub fn answers_are_declared()
    ensures { AnswersAreDeclared }
{}

/// The replies of a legal history can be written with a table of names that its book and its commands can be written
/// with.
pub fn replies_can_be_written()
    ensures { RepliesCanBeWritten }
{}

/// The book of a session can be written with the session's names, its reports are typed, and its numbers and days are
/// those of the language.
pub fn books_of_sessions_can_be_written()
    ensures { BooksOfSessionsCanBeWritten }
{}

/// A book that can be written with a table of names can be written with each table that extends it.
pub fn books_stay_written()
    ensures { BooksStayWritten }
{}
