//! A book with its reports and a history as one JSON document, by `docs/EXPORT.md`.
#![tactic(auto)]

mod answers;
mod export;
mod exported;
mod replies;

pub use export::{book_value, document_text, export_text};
pub use exported::Exported;
pub use replies::entry_value;
