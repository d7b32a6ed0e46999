//! Normal forms and their builders over contracts as trees. Each enters its contracts in a table of rows, calls the
//! builder of rows, and returns the tree of the row.
ghost use Rattle.std.specs.Prelude.{◌+◌, ◌≤◌, ◌<◌, IfOk, length, map};
ghost use Rattle.poets_expr.specs.Expression.{expression_of};
ghost use Rattle.poets_syntax.specs.Contract.{contract_of};
ghost use Rattle.poets_syntax.specs.Results.{GivesContract};
ghost use Rattle.poets_meaning.specs.Arguments.{arguments};
ghost use Rattle.poets_meaning.specs.Width.{size};
ghost use Rattle.poets_calculus.specs.InStudied.{app_in, normal_in};
ghost use Rattle.poets_calculus.specs.Normal as spec;
ghost use Rattle.poets_cons.specs.Table.{contract_at, Extends, Stands};
ghost use Rattle.poets_norm.specs.Asking.{to_ask, AsksWithin};
ghost use Rattle.poets_norm.specs.Questions.{questions};
ghost use Rattle.poets_norm.specs.Rows.{Enters};

use crate::applications::kept_args;
use crate::joining::{self, either};
use crate::row_normals::{applied, normal_rows, rows_from, send as send_row};
use poets_cons::{Arena, enter, to_term};
use poets_expr::{Asks, Expr};
use poets_meaning::Studied;
use poets_syntax::{Binders, Term};
use poets_value::{Memory, Name};
use std::alloc::Global;

// Two contracts in a table of rows.
#[derive(Drop)]
struct Entered {
    arena: Arena,
    first: usize,
    second: usize,
}

// The row of a contract, which is entered in a table and let go.
fn enter_owned(alloc: Global, arena: &mut Arena, term: Term) -> Result<usize, Memory>
    ensures grows { Extends arena.old arena.new }
    ensures stands { Enters arena.new result (contract_of term) }
{
    enter(alloc, arena, &term)
}

// A table in which two contracts are entered.
fn both(alloc: Global, a: Term, b: Term) -> Result<Entered, Memory>
    ensures first { IfOk result (λ r. Stands r.arena r.first (contract_of a)) }
    ensures second { IfOk result (λ r. Stands r.arena r.second (contract_of b)) }
{
    let mut arena = Arena::new(alloc);
    let first = enter_owned(alloc, &mut arena, a)?;
    let second = enter_owned(alloc, &mut arena, b)?;
    Ok(Entered {
        arena,
        first,
        second,
    })
}

// The contract of a row of a table, which is let go.
fn tree_at(alloc: Global, arena: Arena, place: usize) -> Result<Term, Memory>
    requires { place < length arena }
    ensures { GivesContract result (contract_at arena place) }
{
    let rows = rows_from(alloc, arena, place)?;
    to_term(alloc, &rows)
}

/// The choice of two contracts: the alternatives of the first, then those of the second; of alike
/// ones the first is kept.
pub fn plus(alloc: Global, a: Term, b: Term) -> Result<Term, Memory>
    ensures { GivesContract result (spec.plus (contract_of a) (contract_of b)) }
{
    let Entered {
        mut arena,
        first,
        second,
    } = both(alloc, a, b)?;
    let place = either(&mut arena, first, false, second, false)?;
    tree_at(alloc, arena, place)
}

/// Both contracts side by side: `Failure` where one is, and the other where one is `Success`.
/// Otherwise the parts of the first and then those of the second, grouped to the left.
pub fn par(alloc: Global, a: Term, b: Term) -> Result<Term, Memory>
    ensures { GivesContract result (spec.par (contract_of a) (contract_of b)) }
{
    let Entered {
        mut arena,
        first,
        second,
    } = both(alloc, a, b)?;
    let place = joining::par(&mut arena, first, second)?;
    tree_at(alloc, arena, place)
}

/// One contract and then the other: `Failure` where one is, and the other where one is `Success`.
pub fn seq(alloc: Global, a: Term, b: Term) -> Result<Term, Memory>
    ensures { GivesContract result (spec.seq (contract_of a) (contract_of b)) }
{
    let Entered {
        mut arena,
        first,
        second,
    } = both(alloc, a, b)?;
    let place = joining::seq(&mut arena, first, second)?;
    tree_at(alloc, arena, place)
}

/// A transmission before a contract: `Failure` where the contract is `Failure`.
pub fn send(alloc: Global, binders: Binders, when: Expr, then: Term) -> Result<Term, Memory>
    ensures { GivesContract result (spec.send binders (expression_of when) (contract_of then)) }
{
    let mut arena = Arena::new(alloc);
    let then = enter_owned(alloc, &mut arena, then)?;
    let place = send_row(alloc, &mut arena, binders, when, then)?;
    tree_at(alloc, arena, place)
}

/// An application of a template: `Failure` where the template is not hopeful.
/// Each closed argument that is no literal is replaced by the literal of its value.
pub fn app<L>(
    alloc: Global,
    studied: &Studied,
    name: Name,
    args: &[Expr],
    asks: &mut Asks<L>,
) -> Result<Term, Memory>
    ensures app { GivesContract result (app_in studied.now name (map expression_of args.now)) }
    ensures rises { asks.old ≤ asks.new }
    ensures asks { asks.new ≤ asks.old + to_ask args.now }
    ensures questions { AsksWithin result asks.new (asks.old + to_ask args.now) }
{
    let mut arena = Arena::new(alloc);
    let kept = kept_args(alloc, studied, name, args, asks)?;
    let place = applied(alloc, &mut arena, name, kept)?;
    tree_at(alloc, arena, place)
}

/// The normal form of a contract. What is evaluated for it is a literal in it, and need not be evaluated again.
pub fn normal<L>(
    alloc: Global,
    studied: &Studied,
    term: &Term,
    asks: &mut Asks<L>,
) -> Result<Term, Memory>
    ensures normal { GivesContract result (normal_in studied.now (contract_of term.now)) }
    ensures rises { asks.old ≤ asks.new }
    ensures asks { asks.new ≤ asks.old + questions (contract_of term.now) }
    ensures questions { AsksWithin result asks.new (asks.old + questions (contract_of term.now)) }
    ensures size { asks.new ≤ asks.old + size (contract_of term.now) }
    ensures arguments { asks.new ≤ asks.old + arguments (contract_of term.now) }
{
    let rows = normal_rows(alloc, studied, term, asks)?;
    to_term(alloc, &rows)
}
