//! The bodies of templates.
ghost use Rattle.poets_syntax.specs.Results.{GivesContract};
ghost use Rattle.poets_residue.specs.Bodies.{unfolded};

use poets_cons::{Arena, rows_at, to_term};
use poets_expr::{Asks, Expr};
use poets_meaning::Studied;
use poets_residue::unfold;
use poets_syntax::{Template, Term};
use poets_value::Memory;
use std::alloc::Global;

/// The body of a template with its parameters replaced, in normal form.
pub(crate) fn body_with<L>(
    alloc: Global,
    studied: &Studied,
    template: &Template,
    args: &[Expr],
    asks: &mut Asks<L>,
) -> Result<Term, Memory>
    ensures { GivesContract result (unfolded studied.now template.now args.now) }
{
    let mut arena = Arena::new(alloc);
    let place = unfold(alloc, studied, template, args, &mut arena, asks)?;
    let rows = rows_at(alloc, arena.nodes(), place)?;
    to_term(alloc, &rows)
}
