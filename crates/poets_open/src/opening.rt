//! The open transmissions of a contract.
ghost use Rattle.std.specs.Prelude.{◌≡◌, IfOk, OnOk, map};
ghost use Rattle.poets_expr.specs.Expression.{expression_of};
ghost use Rattle.poets_syntax.specs.Book.{book_of};
ghost use Rattle.poets_syntax.specs.Contract.{contract_of};
ghost use Rattle.poets_meaning.specs.InStudied.{CountsFitIn};
ghost use Rattle.poets_meaning.specs.Studied.{marks_of};
ghost use Rattle.poets_residue.specs.Unfolding.{IsStudied};
ghost use Rattle.poets_open.specs.Next.{step_of, same_step, next_in};
ghost use Rattle.poets_open.specs.code.Opened.{is_listed, opened_in, step, Lists, ListsAll};

use crate::bodies::body_with;
use poets_expr::{Asks, Expr, copy, same};
use poets_meaning::Studied;
use poets_residue::may_end;
use poets_syntax::{Binders, Term};
use poets_value::{List, Memory, push};
use std::alloc::Global;

/// An open transmission: the names of the parts of the event that it takes, and its predicate.
#[derive(Debug, PartialEq, Eq, Drop)]
pub struct Step {
    pub binders: Binders,
    pub when: Expr,
}

// Whether the step has these names and this predicate.
fn is_step(listed: &Step, binders: &Binders, when: &Expr) -> bool
    ensures { result ≡ same_step (step_of listed.now) (step binders.now (expression_of when.now)) }
{
    listed.binders == *binders && same(&listed.when, when)
}

// Whether such a step is listed.
fn has(steps: &[Step], binders: &Binders, when: &Expr) -> bool
    ensures { result ≡ is_listed (map step_of steps.now) (step binders.now (expression_of when.now)) }
{
    steps.iter().any(|listed| is_step(listed, binders, when))
}

// Lists a step, unless it is listed.
fn add(alloc: Global, steps: &mut List<Step>, binders: &Binders, when: &Expr) -> Result<(), Memory>
    ensures { OnOk result (Lists steps.old.items steps.new.items (step binders.now (expression_of when.now))) }
{
    if has(steps.as_slice(), binders, when) {
        return Ok(());
    }
    let when = copy(alloc, when)?;
    push(
        steps,
        Step {
            binders: *binders,
            when,
        },
    )
}

// Lists the steps of a contract that are not listed.
fn add_open<L>(
    alloc: Global,
    studied: &Studied,
    term: &Term,
    steps: &mut List<Step>,
    asks: &mut Asks<L>,
) -> Result<(), Memory>
    requires studied { IsStudied (book_of studied.now.book) (marks_of studied.now) }
    requires fits { CountsFitIn studied.now (contract_of term.now) }
    ensures { OnOk result (ListsAll steps.old.items steps.new.items (opened_in studied.now (contract_of term.now))) }
{
    match term {
        Term::Success | Term::Failure => Ok(()),
        Term::Transmit { binders, when, .. } => add(alloc, steps, binders, when),
        Term::Plus(a, b) | Term::Par(a, b) => {
            add_open(alloc, studied, a, steps, asks)?;
            add_open(alloc, studied, b, steps, asks)
        }
        Term::Seq(a, b) => {
            add_open(alloc, studied, a, steps, asks)?;
            if !may_end(studied, a) {
                return Ok(());
            }
            add_open(alloc, studied, b, steps, asks)
        }
        Term::App { name, args } => {
            let Some((template, _)) = studied.template(*name) else {
                return Ok(());
            };
            let body = body_with(alloc, studied, template, args.as_slice(), asks)?;
            add_open(alloc, studied, &body, steps, asks)
        }
    }
}

/// The open transmissions of a contract in normal form, from left to right, each once. Each application has to have as
/// many arguments as its template has parameters, as it has in typed contracts.
pub fn next(alloc: Global, studied: &Studied, term: &Term) -> Result<List<Step>, Memory>
    requires { CountsFitIn studied.now (contract_of term.now) }
    ensures { IfOk result (λ r. map step_of r.items ≡ next_in studied.now (contract_of term.now)) }
{
    studied.recall();
    let mut asks = Asks::new(());
    let mut steps = List::new(alloc);
    add_open(alloc, studied, term, &mut steps, &mut asks)?;
    Ok(steps)
}
