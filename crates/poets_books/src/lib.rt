//! Texts that are parts of a document: of each statement of a book, of a value and of a day, and what a reply is.
//!
//! A statement is written by `docs/LANGUAGE.md`, "Grammar", with single spaces, and the expressions and contracts in it by
//! "What is printed". Each text is copied a few times into the longer one that it is a part of, so the time is linear in
//! the length of all.
#![tactic(auto)]

mod books;
mod declarations;
pub mod laws;
mod lists;
mod parts;
mod replies;

pub use books::book_texts;
pub use parts::{day_text, value_text};
pub use replies::kind_text;
