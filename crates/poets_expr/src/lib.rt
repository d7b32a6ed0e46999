//! Expressions of the contract language: their values, copies with names replaced by literals, and sizes.
//!
//! Contracts speak of plain trees, `Expression` of `specs/Expression.antt`, as `expression_of` reads them.
#![tactic(auto)]

mod arith;
pub mod build;
mod comparing;
mod copies;
mod env;
mod evaluation;
mod expr;
mod folding;
mod free;
mod laws;
mod replacing;
mod sizes;
mod unary;

pub use comparing::same;
pub use copies::copy;
pub use env::{Asks, Decls, Env};
pub use evaluation::eval;
pub use expr::{Expr, Given, Op};
pub use folding::fold_closed;
pub use free::free_names;
pub use laws::{closed_expressions, values_of_folded, values_of_replaced, whole_results};
pub use replacing::{literal, subst};
pub use sizes::size;
