//! Nodes of contracts.

use poets_expr::Expr;
use poets_syntax::Binders;
use poets_value::{List, Name};
use std::sync::Arc;

/// One node of a contract. Its parts are numbers of earlier rows, and tables share its expressions.
#[derive(Drop)]
pub enum Node {
    /// Nothing is left to do.
    Success,
    /// Nothing can be done.
    Failure,
    /// An event of which `when` is true, and then the row `then`.
    Transmit {
        binders: Binders,
        when: Arc<Expr>,
        then: usize,
    },
    /// One of the two.
    Plus(usize, usize),
    /// Both, their events interleaved.
    Par(usize, usize),
    /// The first and then the second.
    Seq(usize, usize),
    /// The body of the template, where its parameters have the values of the arguments.
    App {
        name: Name,
        args: Arc<List<Expr>>,
    },
}
