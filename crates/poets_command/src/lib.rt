//! Commands, statements and replies as data, and which are typed.
#![tactic(auto)]

mod call;
mod laws;
mod named;
mod statement;

pub use call::{Command, Entry, Folio, Reply};
pub use laws::{typed_by_rules, typed_event, typed_registration, typed_report};
pub use named::named_report;
pub use statement::Statement;
