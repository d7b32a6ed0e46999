//! A JSON document, by `docs/EXPORT.md`, read back as a book, its reports and a history.
//!
//! The texts that have names are read first, in their order, and they alone add names to the table; then the other
//! parts. Each part that was found is written again and compared with what was read, one entry at a time: so a document
//! is accepted where it is written as `poets_json` writes it, except for blanks, escapes and the order of members.
#![tactic(auto)]

mod answers;
mod book;
mod entries;
mod fault;
mod importing;
pub mod laws;
mod members;
mod phrases;
mod replies;
mod spoken;

pub use fault::ImportFault;
pub use importing::import;
