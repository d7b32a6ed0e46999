//! Contracts entered in tables of rows.
ghost use Rattle.std.specs.Prelude.{◌≡◌, map, IfOk};
ghost use Rattle.poets_expr.specs.Expression.{expression_of};
ghost use Rattle.poets_syntax.specs.Contract.{contract_of};
ghost use Rattle.poets_cons.specs.Table.{Stands, Extends, AddsReached, AddsReachedBoth};

use crate::arena::Arena;
use crate::node::Node;
use poets_expr::{Expr, copy};
use poets_syntax::Term;
use poets_value::{List, Memory, push};
use std::alloc::Global;
use std::sync::Arc;

// The same expressions, in a list of their own.
pub(crate) fn copy_args(alloc: Global, args: &List<Expr>) -> Result<List<Expr>, Memory>
    ensures { IfOk result (λ r. map expression_of r.items ≡ map expression_of args.now.items) }
{
    let mut copies = List::new(alloc);
    for arg in args.as_slice() {
        push(&mut copies, copy(alloc, arg)?)?;
    }
    Ok(copies)
}

/// The number of the row of this contract, which is added with its parts where it is not there.
#[cycle(enter)]
pub fn enter(alloc: Global, arena: &mut Arena, term: &Term) -> Result<usize, Memory>
    ensures grows { Extends arena.old arena.new }
    ensures stands { IfOk result (λ p. Stands arena.new p (contract_of term.now)) }
    ensures reached { IfOk result (λ p. AddsReached arena.old arena.new p) }
{
    match term {
        Term::Success => arena.add(Node::Success),
        Term::Failure => arena.add(Node::Failure),
        Term::Transmit {
            binders,
            when,
            then,
        } => {
            let then = enter(alloc, arena, then)?;
            let when = Arc::new(alloc, copy(alloc, when)?)?;
            arena.add(Node::Transmit {
                binders: *binders,
                when,
                then,
            })
        }
        Term::Plus(a, b) => {
            let (a, b) = enter_both(alloc, arena, a, b)?;
            arena.add(Node::Plus(a, b))
        }
        Term::Par(a, b) => {
            let (a, b) = enter_both(alloc, arena, a, b)?;
            arena.add(Node::Par(a, b))
        }
        Term::Seq(a, b) => {
            let (a, b) = enter_both(alloc, arena, a, b)?;
            arena.add(Node::Seq(a, b))
        }
        Term::App { name, args } => {
            let args = Arc::new(alloc, copy_args(alloc, args)?)?;
            arena.add(Node::App { name: *name, args })
        }
    }
}

// The numbers of the rows of two contracts.
#[cycle(enter)]
fn enter_both(
    alloc: Global,
    arena: &mut Arena,
    a: &Term,
    b: &Term,
) -> Result<(usize, usize), Memory>
    ensures grows { Extends arena.old arena.new }
    ensures first { IfOk result (λ p. Stands arena.new p.0 (contract_of a.now)) }
    ensures second { IfOk result (λ p. Stands arena.new p.1 (contract_of b.now)) }
    ensures reached { IfOk result (λ p. AddsReachedBoth arena.old arena.new p.0 p.1) }
{
    let first = enter(alloc, arena, a)?;
    let second = enter(alloc, arena, b)?;
    Ok((first, second))
}
