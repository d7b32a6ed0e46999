//! What a session says.

use poets_command::Command;
use poets_lex::Names;
use poets_rules::Rules;
use poets_value::List;
use std::sync::Arc;

/// A valid session.
#[derive(Debug, Drop)]
pub struct Session {
    /// The texts of its names.
    pub names: Names,
    /// Its declared names, its templates with their marks, and its reports.
    pub rules: Rules,
    /// The commands of each clerk, in the order of the sections.
    pub scripts: List<List<Arc<Command>>>,
    /// The clerks' numbers and the commands of its journal.
    pub journal: List<(u32, Arc<Command>)>,
}
