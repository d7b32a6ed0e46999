//! Contracts with names replaced by literals.
ghost use Rattle.std.specs.Prelude.{◌≡◌, IfOk, reverse};
ghost use Rattle.poets_syntax.specs.Contract.{contract_of};
ghost use Rattle.poets_syntax.specs.Replace.{without};
ghost use Rattle.poets_syntax.specs.Replace as replace;
ghost use Rattle.poets_syntax.specs.Results.{AreReplaced, GivesContract};

use crate::build::{par, plus, seq, transmit};
use crate::term::{Binders, Term};
use poets_expr::{Expr, Given};
use poets_value::{List, Memory, Name, push};
use std::alloc::Global;

// Whether a name is among the binders.
fn binds(binders: &Binders, name: Name) -> bool
    ensures { result ≡ replace.binds binders.now name }
{
    binders.day == name
        || binders.what == name
        || binders.receiver == name
        || binders.sender == name
}

/// What is replaced below the binders: all pairs but those of their names, in order.
pub fn below(
    alloc: Global,
    binders: &Binders,
    pairs: &[(Name, Given)],
) -> Result<List<(Name, Given)>, Memory>
    ensures { IfOk result (λ r. reverse r.items ≡ without binders.now (reverse pairs.now)) }
{
    let mut kept = List::new(alloc);
    for pair in pairs {
        if !binds(binders, pair.0) {
            push(&mut kept, *pair)?;
        }
    }
    Ok(kept)
}

/// The expressions with their names replaced by literals.
pub fn subst_args(
    alloc: Global,
    args: &List<Expr>,
    pairs: &[(Name, Given)],
) -> Result<List<Expr>, Memory>
    ensures { IfOk result (λ r. AreReplaced pairs.now args.now.items r.items) }
{
    let mut replaced = List::new(alloc);
    for arg in args.as_slice() {
        push(&mut replaced, poets_expr::subst(alloc, arg, pairs)?)?;
    }
    Ok(replaced)
}

/// The contract with its names replaced by literals; of two pairs with one name the later counts. Below a transmit that
/// binds a name, that name stays.
pub fn subst(alloc: Global, term: &Term, pairs: &[(Name, Given)]) -> Result<Term, Memory>
    ensures { GivesContract result (replace.replace (reverse pairs.now) (contract_of term.now)) }
{
    match term {
        Term::Success => Ok(Term::Success),
        Term::Failure => Ok(Term::Failure),
        Term::Transmit {
            binders,
            when,
            then,
        } => {
            let kept = below(alloc, binders, pairs)?;
            let when = poets_expr::subst(alloc, when, kept.as_slice())?;
            transmit(alloc, *binders, when, subst(alloc, then, kept.as_slice())?)
        }
        Term::Plus(a, b) => plus(alloc, subst(alloc, a, pairs)?, subst(alloc, b, pairs)?),
        Term::Par(a, b) => par(alloc, subst(alloc, a, pairs)?, subst(alloc, b, pairs)?),
        Term::Seq(a, b) => seq(alloc, subst(alloc, a, pairs)?, subst(alloc, b, pairs)?),
        Term::App { name, args } => Ok(Term::App {
            name: *name,
            args: subst_args(alloc, args, pairs)?,
        }),
    }
}

/// The same tree.
pub fn copy(alloc: Global, term: &Term) -> Result<Term, Memory>
    ensures { GivesContract result (contract_of term.now) }
{
    subst(alloc, term, &[])
}
