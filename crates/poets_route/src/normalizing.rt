//! Normal forms and residuals, whose evaluations nobody counts.
ghost use Rattle.std.specs.Prelude.{◌↔◌, IfOk, IsTrue};
ghost use Rattle.poets_syntax.specs.Contract.{contract_of};
ghost use Rattle.poets_syntax.specs.Results.{GivesContract};
ghost use Rattle.poets_meaning.specs.InStudied.{CountsFitIn};
ghost use Rattle.poets_calculus.specs.InStudied.{after_in, normal_in};
ghost use Rattle.poets_norm.specs.Rows.{GivesRows};
ghost use Rattle.poets_cons.specs.Table.{contract_of_rows};
ghost use Rattle.poets_route.specs.code.Choices.{IsAlternative};

use crate::chosen::has;
use poets_cons::Rows;
use poets_expr::Asks;
use poets_meaning::Studied;
use poets_norm::{normal, normal_rows};
use poets_residue::{residual, residual_rows};
use poets_syntax::Term;
use poets_value::{Event, Memory};
use std::alloc::Global;

/// The normal form of a contract.
pub(crate) fn normal_of(alloc: Global, studied: &Studied, term: &Term) -> Result<Term, Memory>
    ensures { GivesContract result (normal_in studied.now (contract_of term.now)) }
{
    let mut asks = Asks::new(());
    normal(alloc, studied, term, &mut asks)
}

/// The residual of a contract by an event.
pub(crate) fn after(
    alloc: Global,
    studied: &Studied,
    event: &Event,
    term: &Term,
) -> Result<Term, Memory>
    requires { CountsFitIn studied.now (contract_of term.now) }
    ensures { GivesContract result (after_in studied.now event.now (contract_of term.now)) }
{
    let mut asks = Asks::new(());
    residual(alloc, studied, term, event, &mut asks)
}

/// Whether the contract is an alternative of the normal form of another.
pub(crate) fn is_of_normal(
    alloc: Global,
    studied: &Studied,
    term: &Term,
    goal: &Term,
) -> Result<bool, Memory>
    ensures { IfOk result
        (λ r. IsTrue r ↔ IsAlternative (normal_in studied.now (contract_of term.now)) (contract_of goal.now)) }
{
    let whole = normal_of(alloc, studied, term)?;
    Ok(has(&whole, goal))
}

/// Whether the contract is an alternative of the residual of another.
pub(crate) fn is_left(
    alloc: Global,
    studied: &Studied,
    event: &Event,
    term: &Term,
    goal: &Term,
) -> Result<bool, Memory>
    requires { CountsFitIn studied.now (contract_of term.now) }
    ensures { IfOk result
        (λ r. IsTrue r ↔ IsAlternative (after_in studied.now event.now (contract_of term.now))
        (contract_of goal.now)) }
{
    let rest = after(alloc, studied, event, term)?;
    Ok(has(&rest, goal))
}

/// The rows of the normal form of a contract.
pub(crate) fn normal_rows_of(alloc: Global, studied: &Studied, term: &Term) -> Result<Rows, Memory>
    ensures { GivesRows result (normal_in studied.now (contract_of term.now)) }
{
    let mut asks = Asks::new(());
    normal_rows(alloc, studied, term, &mut asks)
}

/// The rows of the residual of a contract by an event.
pub(crate) fn rows_after(
    alloc: Global,
    studied: &Studied,
    rows: &Rows,
    event: &Event,
) -> Result<Rows, Memory>
    requires { CountsFitIn studied.now (contract_of_rows rows.now) }
    ensures { GivesRows result (after_in studied.now event.now (contract_of_rows rows.now)) }
{
    let mut asks = Asks::new(());
    residual_rows(alloc, studied, rows, event, &mut asks)
}
