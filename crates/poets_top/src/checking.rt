//! The word `check`: what a book declares is counted.
ghost use Rattle.std.specs.Prelude.{◌≡◌, IfOk, string_bytes};
ghost use Rattle.poets_top.specs.Checking as checking;
ghost use Rattle.poets_writing.specs.Writing.{change};
ghost use Rattle.poets_top.specs.code.Answering.{AnswersSession};
ghost use Rattle.poets_top.specs.code.Sessions.{TellsItsBook};
ghost use Rattle.poets_words.specs.declared.mode.Task.TheVariants as T;

use poets_io::Sink;
use poets_session::Session;
use poets_value::Memory;
use poets_writing::{DONE, NO_MEMORY, Outcome, without_history, write_line};
use std::alloc::Global;

// The line of so many templates and reports.
fn book_line(alloc: Global, templates: usize, reports: usize) -> Result<String, Memory>
    ensures { IfOk result (λ line. string_bytes line ≡ checking.book_line templates reports) }
{
    Ok(format!(in alloc; "book: templates {templates}, reports {reports}\n")?)
}

// The line of a book that was checked.
fn book_text(alloc: Global, session: &Session) -> Result<String, Memory>
    ensures { TellsItsBook session.now result }
{
    let templates = session.rules.studied.book().templates.len();
    let reports = session.rules.reports.len();
    book_line(alloc, templates, reports)
}

/// Writes how many templates and reports a book has.
pub(crate) fn check<K: Sink>(alloc: Global, sink: &mut K, session: &Session) -> Outcome
    ensures { AnswersSession T.Check session.now (change K.held K.faults sink.old sink.new) result }
{
    match book_text(alloc, session) {
        Ok(line) => write_line(alloc, sink, DONE, line.as_str()),
        Err(_) => without_history(alloc, NO_MEMORY),
    }
}
