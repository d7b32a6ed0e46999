//! What the program tells of itself on standard error.

/// The usage line, what each word does, where the pages are, and what proved the program.
pub(crate) const HELP: &str =
    "usage: poets check | run | replay | demo N | explain NAME | keep | recover | resume | export

A text is read from standard input, as in: poets run < session.poets
  check         counts the templates and reports of a book, or names the first fault of the text
  run           executes the commands of a session's clerks, all at once, and prints their history
  replay        executes the commands of a journal, in its order, and prints their history
  explain NAME  executes them too, and tells what the contract NAME is open for and how its events perform it
  demo N        prints one line about N sales by each of eight clerks, N from 1 to 1000, and reads nothing
  keep          does what run does, and puts each command into the file poets.journal before its line is printed
  recover       reads a book, executes the commands that poets.journal holds, and prints their history
  resume        does what keep does, after the commands that poets.journal holds, and prints the new lines
  export        executes the commands of a journal, and prints its book and their history as one JSON document

docs/LANGUAGE.md has the language, docs/REPLIES.md the replies, docs/COOKBOOK.md whole contracts.
poets, proved by the Rattle toolchain with the logic dac8208d650f15bf
";
