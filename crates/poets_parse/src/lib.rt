//! Statements read from their tokens, by the grammar of `poets_grammar`.
//!
//! Each reader takes the tokens from its place on, and returns what it read and the tokens after that.
#![tactic(auto)]

mod build;
mod command;
mod contract;
mod declaration;
mod depth;
mod expression;
mod fault;
mod list;
mod literal;
mod statements;
mod step;

pub use depth::is_too_deep;
pub use fault::{SyntaxFault, Unread};
pub use statements::{begun, statement, statement_stored};
