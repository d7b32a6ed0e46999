//! Texts cut into tokens, and the table of their names.
#![tactic(auto)]

mod fault;
mod front;
pub mod laws;
mod lexeme;
mod lexer;
mod names;
mod piece;
mod sign;
mod token;
mod word;

pub use fault::LexFault;
pub use lexeme::is_name;
pub use lexer::tokens;
pub use names::Names;
pub use token::{Sign, Tok, Token, Word};
