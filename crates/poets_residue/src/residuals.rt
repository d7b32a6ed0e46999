//! Residuals.
ghost use Rattle.std.specs.Prelude.{◌+◌, ◌≤◌};
ghost use Rattle.poets_syntax.specs.Contract.{contract_of};
ghost use Rattle.poets_syntax.specs.Results.{GivesContract};
ghost use Rattle.poets_meaning.specs.InStudied.{width_in, CountsFitIn};
ghost use Rattle.poets_calculus.specs.InStudied.{after_in};
ghost use Rattle.poets_residue.specs.Once.{once_in};

use crate::derivation::residual_rows;
use poets_cons::{of_term, to_term};
use poets_expr::Asks;
use poets_meaning::Studied;
use poets_syntax::Term;
use poets_value::{Event, Memory};
use std::alloc::Global;

/// The residual of a contract by an event.
/// It takes at most as many evaluations as the contract is wide. Applications have as many arguments as their templates
/// have parameters, as in typed contracts.
pub fn residual<L>(
    alloc: Global,
    studied: &Studied,
    term: &Term,
    event: &Event,
    asks: &mut Asks<L>,
) -> Result<Term, Memory>
    requires { CountsFitIn studied.now (contract_of term.now) }
    ensures residual { GivesContract result (after_in studied.now event.now (contract_of term.now)) }
    ensures rises { asks.old ≤ asks.new }
    ensures asks { asks.new ≤ asks.old + width_in studied.now (contract_of term.now) }
    ensures once { asks.new ≤ asks.old + once_in studied.now (contract_of term.now) }
{
    let rows = of_term(alloc, term)?;
    let left = residual_rows(alloc, studied, &rows, event, asks)?;
    to_term(alloc, &left)
}
