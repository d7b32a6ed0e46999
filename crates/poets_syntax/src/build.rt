//! Contracts made of their parts, and copies of parameters.
ghost use Rattle.std.specs.Prelude.{◌≡◌, IfOk};
ghost use Rattle.poets_expr.specs.Expression.{expression_of};
ghost use Rattle.poets_syntax.specs.Contract.{contract_of, Transmit, Plus, Par, Seq};
ghost use Rattle.poets_syntax.specs.Results.{GivesContract};

pub use crate::equality::same;
pub use crate::substitution::{copy, subst};
use crate::term::{Binders, Param, Term};
use poets_expr::Expr;
use poets_value::{List, Memory, push};
use std::alloc::Global;

/// A contract in a box of its own.
pub fn boxed(alloc: Global, term: Term) -> Result<Box<Term>, Memory>
    ensures { IfOk result (λ b. b.value ≡ term) }
{
    Ok(Box::new(alloc, term)?)
}

/// The same parameters, in a list of their own.
pub fn copy_params(alloc: Global, params: &List<Param>) -> Result<List<Param>, Memory>
    ensures { IfOk result (λ r. r.items ≡ params.now.items) }
{
    let mut copies = List::new(alloc);
    for param in params.as_slice() {
        push(&mut copies, *param)?;
    }
    Ok(copies)
}

/// A transmit and what follows it.
pub fn transmit(alloc: Global, binders: Binders, when: Expr, then: Term) -> Result<Term, Memory>
    ensures { GivesContract result (Transmit binders (expression_of when) (contract_of then)) }
{
    let then = boxed(alloc, then)?;
    Ok(Term::Transmit {
        binders,
        when,
        then,
    })
}

/// A choice.
pub fn plus(alloc: Global, a: Term, b: Term) -> Result<Term, Memory>
    ensures { GivesContract result (Plus (contract_of a) (contract_of b)) }
{
    let a = boxed(alloc, a)?;
    let b = boxed(alloc, b)?;
    Ok(Term::Plus(a, b))
}

/// Two contracts side by side.
pub fn par(alloc: Global, a: Term, b: Term) -> Result<Term, Memory>
    ensures { GivesContract result (Par (contract_of a) (contract_of b)) }
{
    let a = boxed(alloc, a)?;
    let b = boxed(alloc, b)?;
    Ok(Term::Par(a, b))
}

/// One contract after the other.
pub fn seq(alloc: Global, a: Term, b: Term) -> Result<Term, Memory>
    ensures { GivesContract result (Seq (contract_of a) (contract_of b)) }
{
    let a = boxed(alloc, a)?;
    let b = boxed(alloc, b)?;
    Ok(Term::Seq(a, b))
}
