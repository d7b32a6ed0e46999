//! What a template's body, and what a transmission's continuation, says of values.
ghost use Rattle.poets_syntax.specs.Contract.{contract_of};
ghost use Rattle.poets_syntax.specs.Replace.{replace};
ghost use Rattle.poets_syntax.specs.Givens as spec;
ghost use Rattle.poets_syntax.specs.Results.{GivesContract};
ghost use Rattle.poets_route.specs.code.Under.{body_with};

use poets_expr::{Asks, Expr};
use poets_meaning::Studied;
use poets_residue::{argument_givens, event_givens};
use poets_syntax::{Binders, Template, Term, subst};
use poets_value::{Event, Memory};
use std::alloc::Global;

/// The body of a template with its parameters replaced by what the arguments stand for.
pub(crate) fn unfolded(
    alloc: Global,
    studied: &Studied,
    template: &Template,
    args: &[Expr],
) -> Result<Term, Memory>
    ensures { GivesContract result (body_with studied.now template.now args.now) }
{
    let decls = &studied.book().decls;
    let params = template.params.as_slice();
    let mut asks = Asks::new(());
    let pairs = argument_givens(alloc, decls, params, args, &mut asks)?;
    subst(alloc, &template.body, pairs.as_slice())
}

/// The continuation of a transmission that took the event, its binders replaced by the event's parts.
pub(crate) fn continued(
    alloc: Global,
    binders: &Binders,
    event: &Event,
    then: &Term,
) -> Result<Term, Memory>
    ensures { GivesContract result (replace (spec.event_givens binders.now event.now) (contract_of then.now)) }
{
    let pairs = event_givens(binders, event);
    subst(alloc, then, &pairs)
}
