//! Laws of printed statements and replies, each stated by a function that does nothing.
//!
//! A text has one list of tokens (`poets_lex`, `one_reading`), and tokens are one statement at most (`poets_grammar`,
//! `one_statement`). So no other statement has the text of a statement, and what reads the text finds the one that was
//! printed.
ghost use Rattle.poets_books.specs.Laws.{StatementReadsBack};
ghost use Rattle.poets_books.specs.Replies.{RepliesBeginWithKinds};

/// The text of a statement is cut into tokens, without a new name, and the tokens are that statement.
pub fn statement_reads_back()
    ensures { StatementReadsBack }
{}

/// The printed text of a reply begins with the words that say what it is, but for what was shown and for an answer.
pub fn replies_begin_with_kinds()
    ensures { RepliesBeginWithKinds }
{}
