//! The statements of a session.

use crate::call::Command;
use poets_report::Report;
use poets_syntax::Template;
use poets_value::{List, Name};

/// A statement of a session.
#[derive(Debug, PartialEq, Eq, Drop)]
pub enum Statement {
    Agents(List<Name>),
    Kinds(List<Name>),
    Template(Template),
    Report(Report),
    /// The commands of the next clerk follow.
    Clerk,
    /// Numbered commands follow.
    Journal,
    Command(Command),
    /// A command of the clerk with that number.
    Numbered(u64, Command),
}
