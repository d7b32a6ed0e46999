//! What is exported.

use poets_command::Entry;
use poets_report::Report;
use poets_syntax::Book;
use poets_value::List;

/// A book with its reports, and a history.
#[derive(Debug, PartialEq, Eq, Drop)]
pub struct Exported {
    pub book: Book,
    pub reports: List<Report>,
    pub history: List<Entry>,
}
