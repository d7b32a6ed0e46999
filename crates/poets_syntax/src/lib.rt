//! Contracts, books and their types.
#![tactic(auto)]

pub mod build;
mod equality;
pub mod examples;
pub mod laws;
pub mod substitution;
mod term;

pub use equality::same;
pub use substitution::{copy, subst};
pub use term::{Binders, Book, Param, Template, Term};
